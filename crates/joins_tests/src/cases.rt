use charts::{Event, Fault, Kind, Peer};

pub(crate) fn out(peer: Peer, number: u16) -> Event {
    Event::new(Kind::Output, peer, number)
}

pub(crate) fn input(peer: Peer, number: u16) -> Event {
    Event::new(Kind::Input, peer, number)
}

pub(crate) fn action(number: u16) -> Event {
    Event::new(Kind::Action, Peer::Environment, number)
}

// A fault without a place, by the numbers that users know.
pub(crate) fn fault(number: u8, layer: u8) -> Option<Fault> {
    Some(Fault {
        number,
        instance: 0,
        event: 0,
        layer,
    })
}
