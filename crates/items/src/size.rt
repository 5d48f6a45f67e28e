use words::Word;

// A chart text's name, and how many instances and events it has.
#[derive(Clone, Copy)]
pub struct Size<'t> {
    pub title: Word<'t>,
    pub instances: usize,
    pub events: usize,
}
