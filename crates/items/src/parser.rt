use crate::parts::Stage;
use words::Reader;

// A chart text after its first sentence, read item by item.
#[derive(Drop)]
pub struct Parser<'t> {
    pub(crate) reader: Reader<'t>,
    pub(crate) stage: Stage,
}
