ghost use Rattle.std.specs.Prelude.{◌≡◌};
ghost use Rattle.messages.specs.Ends.{IsEnd, other_end};

use charts::{Event, Kind};

// One of the two events of a message.
#[derive(Clone, Copy, PartialEq, Eq, Hash, Debug)]
pub enum End {
    Output,
    Input,
}

impl End {
    // What the event is of its message, none where it is of no message.
    pub fn of(event: Event) -> Option<End>
        ensures { IsEnd event result }
    {
        match Kind::try_from(event.kind) {
            Ok(Kind::Output) => Some(End::Output),
            Ok(Kind::Input) => Some(End::Input),
            Ok(Kind::Action) | Err(_) => None,
        }
    }

    // The other event of the message.
    pub fn other(self) -> End
        ensures { result ≡ other_end self }
    {
        match self {
            End::Output => End::Input,
            End::Input => End::Output,
        }
    }
}
