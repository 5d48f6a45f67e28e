use crate::cases::check_copy;
use charts::{Chart, Event, Kind, Peer};
use copies::{Indexed, Slot};
use polls::Poll;
use std::test::Fail;
use tables::Table;

fn done() -> Event {
    Event::new(Kind::Action, Peer::Environment, 4095)
}

fn sent(peer: u8, number: u16) -> Event {
    Event::new(Kind::Output, Peer::Instance(peer), number)
}

fn received(peer: u8, number: u16) -> Event {
    Event::new(Kind::Input, Peer::Instance(peer), number)
}

fn slot(event: Event, mate: u16, ahead: u16) -> Option<Slot> {
    Some(Slot { event, mate, ahead })
}

#[test]
fn polls(rt: HostRuntime) -> Result<(), Fail> {
    check_copy(&rt, &Poll::new(0, 0))?;
    check_copy(&rt, &Poll::new(2, 3))?;
    check_copy(&rt, &Poll::new(31, 32))
}

#[test]
fn a_message_overtakes_another(rt: HostRuntime) -> Result<(), Fail> {
    let events = [sent(1, 0), sent(1, 1), received(0, 1), received(0, 0)];
    let table = Table::new(&[2, 2], &events);
    let copy = Indexed::new(&table);
    assert_eq!(rt; copy.slot(0, 0), slot(sent(1, 0), 1, 0));
    assert_eq!(rt; copy.slot(0, 1), slot(sent(1, 1), 0, 0));
    assert_eq!(rt; copy.slot(1, 0), slot(received(0, 1), 1, 1));
    assert_eq!(rt; copy.slot(1, 1), slot(received(0, 0), 0, 0));
    check_copy(&rt, &table)
}

#[test]
fn a_message_to_oneself(rt: HostRuntime) -> Result<(), Fail> {
    let events = [sent(0, 5), done(), received(0, 5)];
    let table = Table::new(&[3], &events);
    let copy = Indexed::new(&table);
    assert_eq!(rt; copy.slot(0, 0), slot(sent(0, 5), 2, 0));
    assert_eq!(rt; copy.slot(0, 1), slot(done(), 0, 0));
    assert_eq!(rt; copy.slot(0, 2), slot(received(0, 5), 0, 0));
    assert_eq!(rt; copy.slot(0, 3), None);
    check_copy(&rt, &table)
}

#[test]
fn messages_to_others_are_not_ahead(rt: HostRuntime) -> Result<(), Fail> {
    let events = [
        sent(2, 0),
        Event::new(Kind::Output, Peer::Environment, 1),
        sent(1, 2),
        received(0, 2),
        received(0, 0),
    ];
    let table = Table::new(&[3, 1, 1], &events);
    let copy = Indexed::new(&table);
    assert_eq!(rt; copy.slot(1, 0), slot(received(0, 2), 2, 0));
    assert_eq!(rt; copy.slot(2, 0), slot(received(0, 0), 0, 0));
    check_copy(&rt, &table)
}

#[test]
fn the_largest_tables(rt: HostRuntime) -> Result<(), Fail> {
    check_copy(&rt, &Table::new(&[0; 32], &[]))?;
    check_copy(&rt, &Table::new(&[4096], &[done(); 4096]))
}

#[test]
fn a_spoiled_chart(rt: HostRuntime) -> Result<(), Fail> {
    let events = [sent(2, 7)];
    let table = Table::new(&[1, 0, 0], &events);
    let copy = Indexed::new(&table);
    assert!(rt; copy.fault().is_some());
    assert_eq!(rt; copy.fault(), table.fault());
    assert_eq!(rt; copy.width(), 0);
    assert_eq!(rt; copy.count(0), 0);
    assert_eq!(rt; copy.events(), 0);
    assert_eq!(rt; copy.slot(0, 0), None);
    check_copy(&rt, &Poll::new(32, 1))
}
