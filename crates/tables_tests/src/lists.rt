use crate::cases::{action, at, input, out};
use charts::Peer::Instance;
use charts::{Chart, NO_EVENT};
use tables::Table;

#[test]
fn no_instances(rt: HostRuntime) {
    let table = Table::new(&[], &[]);
    assert_eq!(rt; table.fault(), None);
    assert_eq!(rt; table.width(), 0);
    assert_eq!(rt; table.span(), 0);
    assert_eq!(rt; table.count(0), 0);
    assert_eq!(rt; table.event(0, 0), NO_EVENT);
}

#[test]
fn events_by_place(rt: HostRuntime) {
    let events = [
        out(Instance(2), 7),
        action(9),
        input(Instance(0), 7),
        action(3),
    ];
    let table = Table::new(&[2, 0, 2], &events);
    assert_eq!(rt; table.width(), 3);
    assert_eq!(rt; table.span(), 8);
    assert_eq!(rt; table.count(0), 2);
    assert_eq!(rt; table.count(1), 0);
    assert_eq!(rt; table.count(2), 2);
    assert_eq!(rt; table.count(3), 0);
    assert_eq!(rt; table.event(0, 1), action(9));
    assert_eq!(rt; table.event(0, 2), NO_EVENT);
    assert_eq!(rt; table.event(1, 0), NO_EVENT);
}

#[test]
fn the_last_events(rt: HostRuntime) {
    let events = [
        out(Instance(2), 7),
        action(9),
        input(Instance(0), 7),
        action(3),
    ];
    let table = Table::new(&[2, 0, 2], &events);
    assert_eq!(rt; table.event(2, 0), input(Instance(0), 7));
    assert_eq!(rt; table.event(2, 1), action(3));
    assert_eq!(rt; table.event(2, 2), NO_EVENT);
    assert_eq!(rt; table.event(3, 0), NO_EVENT);
}

#[test]
fn a_message_to_oneself(rt: HostRuntime) {
    let events = [out(Instance(0), 4095), input(Instance(0), 4095)];
    let table = Table::new(&[2], &events);
    assert_eq!(rt; table.fault(), None);
    assert_eq!(rt; table.span(), 4096);
    assert_eq!(rt; table.event(0, 1), input(Instance(0), 4095));
}

#[test]
fn a_spoiled_chart_is_empty(rt: HostRuntime) {
    let events = [out(Instance(1), 1)];
    let table = Table::new(&[1, 0], &events);
    assert_eq!(rt; table.fault(), at(18, 0, 0));
    assert_eq!(rt; table.width(), 0);
    assert_eq!(rt; table.span(), 0);
    assert_eq!(rt; table.count(0), 0);
    assert_eq!(rt; table.event(0, 0), NO_EVENT);
}

#[test]
fn actions_have_no_span(rt: HostRuntime) {
    let events = [action(4095); 2];
    let table = Table::new(&[1, 1], &events);
    assert_eq!(rt; table.fault(), None);
    assert_eq!(rt; table.span(), 0);
}
