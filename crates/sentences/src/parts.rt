use charts::Kind;
use words::Word;

// An event as a chart text writes it.
#[derive(Clone, Copy)]
pub struct EventText<'t> {
    // where its first word starts
    pub start: usize,
    pub kind: Kind,
    // of its message or action
    pub name: Word<'t>,
    // none for the environment
    pub peer: Option<Word<'t>>,
}
