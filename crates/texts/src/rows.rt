ghost use Rattle.std.specs.Prelude.{◌≡◌};
ghost use Rattle.words.specs.Reading.{placed};
ghost use Rattle.texts.specs.Rows.{row_of};

use words::Word;

// A name as its place and its length in the text; zeros in a row that is not used.
#[derive(Clone, Copy, PartialEq, Eq, Debug)]
pub struct Name {
    pub start: usize,
    pub length: usize,
}

// A row that is not used.
pub const NO_NAME: Name = Name {
    start: 0,
    length: 0,
};

impl Name {
    // Where the word stands.
    pub(crate) fn of(word: Word) -> Name
        ensures { result ≡ row_of (placed word.entry) }
    {
        Name {
            start: word.start,
            length: word.bytes.len(),
        }
    }
}
