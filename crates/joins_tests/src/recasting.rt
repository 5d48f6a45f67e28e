use crate::cases::{action, fault, input, out};
use charts::Peer::{Environment, Instance};
use charts::{Chart, NO_EVENT};
use joins::After;
use polls::Poll;
use recasts::Recast;
use std::test::Fail;
use tables::Table;

#[test]
fn three_instances_turned(rt: HostRuntime) {
    let events = [
        out(Instance(1), 4),
        action(7),
        input(Instance(0), 4),
        out(Environment, 5),
    ];
    let table = Table::new(&[2, 1, 1], &events);
    let mut names = [9; 32];
    names[0] = 2;
    names[1] = 0;
    names[2] = 1;
    let turned = Recast::new(table, names);
    assert_eq!(rt; turned.fault(), None);
    assert_eq!(rt; turned.width(), 3);
    assert_eq!(rt; turned.event(2, 0), out(Instance(0), 4));
    assert_eq!(rt; turned.event(2, 1), action(7));
    assert_eq!(rt; turned.event(0, 0), input(Instance(2), 4));
    assert_eq!(rt; turned.event(1, 0), out(Environment, 5));
    assert_eq!(rt; turned.event(3, 0), NO_EVENT);
}

#[test]
fn no_permutation(rt: HostRuntime) {
    let poll = Poll::new(1, 1);
    let mut names = [0; 32];
    assert_eq!(rt; Recast::new(poll, names).fault(), fault(32, 5));
    names[1] = 2;
    assert_eq!(rt; Recast::new(poll, names).fault(), fault(32, 5));
    names[1] = 1;
    assert_eq!(rt; Recast::new(poll, names).fault(), None);
    assert_eq!(rt; Recast::new(Poll::new(32, 1), names).fault(), fault(33, 2));
    assert_eq!(rt; Recast::new(Table::new(&[], &[]), [255; 32]).fault(), None);
}

#[test]
fn there_and_back(rt: HostRuntime) -> Result<(), Fail> {
    let poll = Poll::new(2, 1);
    let mut names = [0; 32];
    names[0] = 1;
    names[1] = 2;
    let turned = Recast::new(After::new(poll, poll), names);
    assert_eq!(rt; turned.event(1, 4), out(Instance(2), 4));
    let Some(back) = turned.inverse() else {
        return Err(Fail::new("no inverse"));
    };
    let again = Recast::new(turned, back);
    assert_eq!(rt; again.event(0, 4), out(Instance(1), 4));
    assert_eq!(rt; again.event(2, 3), out(Instance(0), 7));
    Ok(())
}
