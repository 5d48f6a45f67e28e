ghost use Rattle.std.specs.Prelude.{◌≡◌, ◌<◌, length, ◌≢◌};
ghost use Rattle.charts.specs.Events.{environment};
ghost use Rattle.joining.specs.Moves.{moved};
ghost use Rattle.joining.specs.Recast.{to};

use charts::{Event, Peer};

// The event with its peer renamed, unless that is the environment. `shifted` of joins moves peers too, and says why they are two.
pub(crate) fn renamed(e: Event, names: &[u8]) -> Event
    requires { (e.peer ≢ environment) → e.peer < length names.now }
    ensures { result ≡ moved (to names.now) 0 e }
{
    let peer = match Peer::from(e.peer) {
        Peer::Instance(i) => Peer::Instance(names[usize::from(i)]),
        Peer::Environment => Peer::Environment,
    };
    Event {
        peer: u8::from(peer),
        ..e
    }
}
