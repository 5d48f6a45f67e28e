ghost use Rattle.std.specs.Prelude.{◌≡◌};
ghost use Rattle.words.specs.Faults.{number_of};

use charts::Rule;

// Why a chart text is refused.
#[derive(Clone, Copy, PartialEq, Eq, Debug)]
pub enum Cause {
    // a byte that is not allowed
    BadByte,
    // a word has over 16 bytes
    LongWord,
    // another word is wanted, or a semicolon
    WrongWord,
    // the text ends early
    TextEnds,
    // an instance is named twice
    InstanceRepeated,
    // a peer is no instance
    PeerUnknown,
    // a table is too short
    ShortTable,
    // a word or a semicolon stands after the end
    AfterEnd,
    // the chart breaks a rule
    Chart(Rule),
}

// A chart text is refused at this byte.
#[derive(Clone, Copy, PartialEq, Eq, Debug)]
pub struct Fault {
    pub cause: Cause,
    pub byte: usize,
}

impl Fault {
    // A refusal for this cause, at this byte.
    pub const fn at(cause: Cause, byte: usize) -> Fault
        ensures { result ≡ record { cause = cause; byte = byte } }
    {
        Fault { cause, byte }
    }
}

impl From<Cause> for u8 {
    ghost from_gives = { λ cause number. number ≡ number_of cause };

    fn from(cause: Cause) -> u8 {
        match cause {
            Cause::BadByte => 21,
            Cause::LongWord => 22,
            Cause::WrongWord => 23,
            Cause::TextEnds => 24,
            Cause::InstanceRepeated => 25,
            Cause::PeerUnknown => 26,
            Cause::ShortTable => 27,
            Cause::AfterEnd => 28,
            Cause::Chart(rule) => rule.into(),
        }
    }
}
