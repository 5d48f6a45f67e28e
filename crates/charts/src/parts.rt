ghost use Rattle.std.specs.Prelude.{◌≡◌, Some};
ghost use Rattle.charts.specs.Events.{event};
ghost use Rattle.charts.specs.Kinds.{code_of};
ghost use Rattle.charts.specs.Peers.{byte_of};
ghost use Rattle.charts.specs.Sizes.{size_text};

use crate::kinds::Kind;
use crate::peers::Peer;
use std::fmt;

// The limits of a sound chart: its instances, its events, and the number of a message or an action.
pub const MOST_INSTANCES: usize = 32;

pub const MOST_EVENTS: usize = 4096;

pub const MOST_NUMBER: u16 = 4095;

// One event of an instance: an output to the peer, an input from it, or an action.
// The row of a table, which may have any bytes for its kind and peer; `Kind` and `Peer` say what they stand for.
#[derive(Clone, Copy, PartialEq, Eq, Debug)]
pub struct Event {
    pub kind: u8,
    pub peer: u8,
    // names a message or an action
    pub number: u16,
}

// What a chart answers outside its lists.
pub const NO_EVENT: Event = Event {
    kind: 0,
    peer: 0,
    number: 0,
};

impl Event {
    pub const fn new(kind: Kind, peer: Peer, number: u16) -> Event
        ensures { result ≡ event (code_of kind) (byte_of peer) number }
    {
        Event {
            kind: kind.code(),
            peer: peer.byte(),
            number,
        }
    }
}

// A chart's size: its instances, its events and its span.
#[derive(Clone, Copy, PartialEq, Eq, Debug)]
pub struct Summary {
    pub width: usize,
    pub events: usize,
    pub span: usize,
}

impl fmt::Display for Summary {
    ghost output = { λ size. Some (size_text size) };

    fn fmt<W: fmt::Write>(&self, f: &mut fmt::Formatter<W>) -> fmt::Result {
        write!(f, "chart {} {} {}", self.width, self.events, self.span)
    }
}
