use charts::{Chart, Event, Fault, Kind, Peer};
use tables::Table;

pub(crate) fn out(peer: Peer, number: u16) -> Event {
    Event::new(Kind::Output, peer, number)
}

pub(crate) fn input(peer: Peer, number: u16) -> Event {
    Event::new(Kind::Input, peer, number)
}

pub(crate) fn action(number: u16) -> Event {
    Event::new(Kind::Action, Peer::Environment, number)
}

// An event with a kind that there is not: a number, since `Kind` cannot say it.
pub(crate) fn unknown(kind: u8) -> Event {
    Event {
        kind,
        peer: u8::from(Peer::Environment),
        number: 0,
    }
}

// The fault that a table finds, by the numbers that its users see, and its place.
pub(crate) fn at(number: u8, instance: u8, event: u16) -> Option<Fault> {
    Some(Fault {
        number,
        instance,
        event,
        layer: 1,
    })
}

pub(crate) fn fault_of(lengths: &[u16], events: &[Event]) -> Option<Fault> {
    Table::new(lengths, events).fault()
}
