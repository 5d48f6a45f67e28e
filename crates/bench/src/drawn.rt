ghost use Rattle.std.specs.Prelude.{◌≡◌};
ghost use Rattle.charts.specs.Events.{event, output, input};
ghost use Rattle.checks.specs.Cut.{in_one};
ghost use Rattle.worked.specs.Charts.{late, cross, over, hop};
ghost use Rattle.bench.specs.Rows.{to_itself};

use charts::{Event, Kind, Peer};

// An output to the peer.
fn out(peer: u8, message: u16) -> Event
    ensures { result ≡ event output peer message }
{
    Event::new(Kind::Output, Peer::Instance(peer), message)
}

// An input from the peer.
fn take(peer: u8, message: u16) -> Event
    ensures { result ≡ event input peer message }
{
    Event::new(Kind::Input, Peer::Instance(peer), message)
}

// The events of late, instance after instance, as those of the charts below.
pub(crate) fn late() -> [Event; 5]
    ensures { result ≡ in_one late }
{
    let sound = Event::new(Kind::Action, Peer::Environment, 0);
    [out(1, 0), take(0, 0), take(2, 1), out(1, 1), sound]
}

pub(crate) fn cross() -> [Event; 4]
    ensures { result ≡ in_one cross }
{
    [take(1, 0), out(1, 1), take(0, 1), out(0, 0)]
}

pub(crate) fn over() -> [Event; 4]
    ensures { result ≡ in_one over }
{
    [out(1, 0), out(1, 1), take(0, 1), take(0, 0)]
}

pub(crate) fn hop() -> [Event; 2]
    ensures { result ≡ in_one hop }
{
    [out(1, 0), take(0, 0)]
}

pub(crate) fn to_itself() -> [Event; 2]
    ensures { result ≡ in_one to_itself }
{
    [out(0, 0), take(0, 0)]
}
