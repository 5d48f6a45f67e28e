ghost use Rattle.std.specs.Prelude.{◌≡◌};
ghost use Rattle.std.specs.Str.{bytes_eq};

// A word of a chart text, and the place of its first byte.
#[derive(Clone, Copy)]
pub struct Word<'t> {
    pub start: usize,
    pub bytes: &'t [u8],
}

impl<'t> Word<'t> {
    // Whether it has these bytes.
    pub fn is(&self, bytes: &[u8]) -> bool
        ensures { result ≡ bytes_eq self.now.bytes.now bytes.now }
    {
        self.bytes == bytes
    }
}

// What stands next in a chart text.
#[derive(Clone, Copy)]
pub enum Piece<'t> {
    Word(Word<'t>),
    // a semicolon at this place
    Semicolon(usize),
    // the end of the text, whose length this is
    End(usize),
}
