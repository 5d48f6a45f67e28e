ghost use Rattle.std.specs.Prelude.{◌≡◌};

use charts::{Event, NO_EVENT};

// An event of the copy, with what its chart fixes of it beforehand.
// Numbers and no Options, 0 where no message goes between instances: the event beside them says so already, and what is read of them there is not used.
#[derive(Clone, Copy, PartialEq, Eq, Debug)]
pub struct Slot {
    pub event: Event,
    // where the other event of the message stands on the peer
    pub mate: u16,
    // how many messages from the same sender are ahead of the one that is input, when this event is the next
    pub ahead: u16,
}

impl Slot {
    // An event of no message between instances.
    pub(crate) fn alone(event: Event) -> Slot
        ensures { result ≡ record { event = event; mate = 0; ahead = 0 } }
    {
        Slot {
            event,
            mate: 0,
            ahead: 0,
        }
    }
}

// Where the events of an instance stand among all: from the start on, so many.
#[derive(Clone, Copy, PartialEq, Eq, Debug)]
pub struct Column {
    pub start: u16,
    pub count: u16,
}

// A place of the table that holds no event.
pub const NO_SLOT: Slot = Slot {
    event: NO_EVENT,
    mate: 0,
    ahead: 0,
};
