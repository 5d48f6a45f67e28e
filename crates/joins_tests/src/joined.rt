use crate::cases::{action, fault, input, out};
use charts::Peer::{Environment, Instance};
use charts::{Chart, NO_EVENT};
use joins::{After, Beside};
use polls::Poll;
use tables::Table;

#[test]
fn one_hop_after_another(rt: HostRuntime) {
    let events = [out(Instance(1), 4), action(9), input(Instance(0), 4)];
    let hop = Table::new(&[2, 1], &events);
    let join = After::new(hop, hop);
    assert_eq!(rt; join.fault(), None);
    assert_eq!(rt; join.width(), 2);
    assert_eq!(rt; join.span(), 10);
    assert_eq!(rt; join.count(0), 4);
    assert_eq!(rt; join.event(0, 2), out(Instance(1), 9));
    assert_eq!(rt; join.event(0, 3), action(9));
    assert_eq!(rt; join.event(1, 1), input(Instance(0), 9));
    assert_eq!(rt; join.event(1, 2), NO_EVENT);
}

#[test]
fn one_hop_beside_another(rt: HostRuntime) {
    let events = [
        out(Instance(1), 4),
        out(Environment, 6),
        input(Instance(0), 4),
    ];
    let hop = Table::new(&[2, 1], &events);
    let join = Beside::new(hop, hop);
    assert_eq!(rt; join.fault(), None);
    assert_eq!(rt; join.width(), 4);
    assert_eq!(rt; join.span(), 14);
    assert_eq!(rt; join.event(1, 0), input(Instance(0), 4));
    assert_eq!(rt; join.event(2, 0), out(Instance(3), 11));
    assert_eq!(rt; join.event(2, 1), out(Environment, 13));
    assert_eq!(rt; join.event(3, 0), input(Instance(2), 11));
    assert_eq!(rt; join.event(4, 0), NO_EVENT);
}

#[test]
fn widths(rt: HostRuntime) {
    let sixteen = Table::new(&[0; 16], &[]);
    let seventeen = Table::new(&[0; 17], &[]);
    assert_eq!(rt; Beside::new(sixteen, sixteen).width(), 32);
    let wide = Beside::new(sixteen, seventeen);
    assert_eq!(rt; wide.fault(), fault(31, 4));
    assert_eq!(rt; wide.width(), 0);
    assert_eq!(rt; After::new(seventeen, sixteen).width(), 17);
}

#[test]
fn events_and_spans(rt: HostRuntime) {
    let events = [action(0); 2049];
    let long = Table::new(&[2049], &events);
    assert_eq!(rt; After::new(long, long).fault(), fault(31, 3));
    let high = [out(Environment, 2048)];
    let top = Table::new(&[1], &high);
    assert_eq!(rt; After::new(top, top).fault(), fault(31, 3));
    let low = [out(Environment, 2046)];
    assert_eq!(rt; After::new(top, Table::new(&[1], &low)).span(), 4096);
}

#[test]
fn the_first_fault_is_kept(rt: HostRuntime) {
    let broken = Table::new(&[1], &[]);
    let large = Poll::new(32, 1);
    assert_eq!(rt; After::new(broken, large).fault(), fault(13, 1));
    assert_eq!(rt; Beside::new(large, broken).fault(), fault(33, 2));
    let join = After::new(Beside::new(large, large), broken);
    assert_eq!(rt; join.fault(), fault(33, 2));
    assert_eq!(rt; join.count(0), 0);
}

#[test]
fn a_join_of_joins(rt: HostRuntime) {
    let poll = Poll::new(1, 1);
    let pile = After::new(Beside::new(poll, poll), After::new(poll, poll));
    assert_eq!(rt; pile.fault(), None);
    assert_eq!(rt; pile.width(), 4);
    assert_eq!(rt; pile.span(), 8);
    assert_eq!(rt; pile.event(0, 2), out(Instance(1), 4));
    assert_eq!(rt; pile.event(1, 5), out(Instance(0), 7));
    assert_eq!(rt; pile.event(3, 1), out(Instance(2), 3));
}

#[test]
fn brackets_do_not_matter(rt: HostRuntime) {
    let poll = Poll::new(1, 1);
    let left = After::new(After::new(poll, poll), poll);
    let seen = left.event(1, 4);
    let right = left.regroup();
    assert_eq!(rt; right.event(1, 4), seen);
    assert_eq!(rt; right.event(1, 4), input(Instance(0), 4));
    let (first, _) = right.into_parts();
    assert_eq!(rt; first.span(), 2);
}
