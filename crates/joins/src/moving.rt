ghost use Rattle.std.specs.Prelude.{◌≡◌, ◌+◌, ◌<◌, ◌≢◌};
ghost use Rattle.charts.specs.Events.{environment};
ghost use Rattle.joining.specs.Moves.{moved};

use charts::{Event, Peer};

// The event with its message's number raised.
pub(crate) fn raised(e: Event, span: usize) -> Event
    requires { e.number + span < 65536 }
    ensures { result ≡ moved (λ i. i) span e }
{
    if !e.is_message() {
        return e;
    }
    Event {
        number: e.number + span as u16,
        ..e
    }
}

// The event with its message's number raised, and its peer, unless that is the environment.
// A recast moves peers too, by a table: a function of both would take the move as a closure and be public, with a `requires`, which no public call here has.
pub(crate) fn shifted(e: Event, width: usize, span: usize) -> Event
    requires number { e.number + span < 65536 }
    requires peer { (e.peer ≢ environment) → e.peer + width < 256 }
    ensures { result ≡ moved (λ i. i + width) span e }
{
    let peer = match Peer::from(e.peer) {
        Peer::Instance(i) => Peer::Instance(i + width as u8),
        Peer::Environment => Peer::Environment,
    };
    Event {
        peer: u8::from(peer),
        ..raised(e, span)
    }
}
