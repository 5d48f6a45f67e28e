ghost use Rattle.std.specs.Prelude.{◌≡◌};
ghost use Rattle.items.specs.Surveys.{is_end};

use sentences::EventText;
use words::{Fault, Word};

// What a chart text says next.
#[derive(Clone, Copy)]
pub enum Item<'t> {
    // an instance begins, with its name
    Instance(Word<'t>),
    // an event of it
    Event(EventText<'t>),
    // it ends
    InstanceEnd,
    // the text ends
    End,
}

impl<'t> Item<'t> {
    // Whether it is the end of the text.
    pub fn is_end(&self) -> bool
        ensures { result ≡ is_end self.now }
    {
        match self {
            Item::End => true,
            _ => false,
        }
    }
}

// Where a parser of a chart text stands.
#[derive(Clone, Copy, PartialEq, Eq, Debug)]
pub enum Stage {
    // between instances
    Outside,
    // after the name of an instance
    Heading,
    // inside an instance
    Inside,
    // after the end
    Done,
    // after a fault
    Refused(Fault),
}
