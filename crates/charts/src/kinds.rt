ghost use Rattle.std.specs.Prelude.{◌≡◌, Some};
ghost use Rattle.charts.specs.Events.{is_message};
ghost use Rattle.charts.specs.Kinds.{code_of, name_of, Decodes};

use crate::parts::Event;
use std::fmt;

// What an event does.
#[derive(Clone, Copy, PartialEq, Eq, Hash, Debug)]
pub enum Kind {
    Output,
    Input,
    Action,
}

// A byte that stands for no kind.
#[derive(Clone, Copy, PartialEq, Eq, Debug)]
pub struct UnknownKind(pub u8);

impl Kind {
    // The byte that stands for the kind.
    pub const fn code(self) -> u8
        ensures { result ≡ code_of self }
    {
        match self {
            Kind::Output => 1,
            Kind::Input => 2,
            Kind::Action => 3,
        }
    }

    // The word for the kind.
    pub const fn name(self) -> &'static str
        ensures { result.now ≡ name_of self }
    {
        match self {
            Kind::Output => "out",
            Kind::Input => "in",
            Kind::Action => "action",
        }
    }
}

impl From<Kind> for u8 {
    ghost from_gives = { λ kind code. code ≡ code_of kind };

    fn from(kind: Kind) -> u8 {
        kind.code()
    }
}

impl TryFrom<u8> for Kind {
    type Error = UnknownKind;

    ghost try_from_gives = { Decodes };

    fn try_from(code: u8) -> Result<Kind, UnknownKind> {
        match code {
            1 => Ok(Kind::Output),
            2 => Ok(Kind::Input),
            3 => Ok(Kind::Action),
            _ => Err(UnknownKind(code)),
        }
    }
}

impl fmt::Display for Kind {
    ghost output = { λ kind. Some (name_of kind) };

    fn fmt<W: fmt::Write>(&self, f: &mut fmt::Formatter<W>) -> fmt::Result {
        f.write_str(self.name())
    }
}

impl Event {
    // Whether the event sends or receives a message.
    pub fn is_message(&self) -> bool
        ensures { result ≡ is_message self.now }
    {
        matches!(Kind::try_from(self.kind), Ok(Kind::Output | Kind::Input))
    }
}
