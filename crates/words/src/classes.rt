ghost use Rattle.std.specs.Prelude.{◌≡◌};
ghost use Rattle.words.specs.Classes.{class_of};

// What a byte of a chart text is.
#[derive(Clone, Copy, PartialEq, Eq, Debug)]
pub enum Class {
    // a letter, a digit or an underscore
    Word,
    // a space, a tab, a line feed or a carriage return
    Blank,
    Semicolon,
    // a byte that is not allowed
    Other,
}

// What the byte is.
pub fn class_of(byte: u8) -> Class
    ensures { result ≡ class_of byte }
{
    match char::from(byte) {
        'a'..='z' | 'A'..='Z' | '0'..='9' | '_' => Class::Word,
        ' ' | '\t' | '\n' | '\r' => Class::Blank,
        ';' => Class::Semicolon,
        _ => Class::Other,
    }
}
