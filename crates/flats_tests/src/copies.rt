use crate::cases::{check_copy, check_same};
use charts::{Chart, Event, Kind, NO_EVENT, Peer};
use flats::Flat;
use polls::Poll;
use std::test::Fail;
use tables::Table;

fn sent() -> Event {
    Event::new(Kind::Output, Peer::Instance(2), 7)
}

fn received() -> Event {
    Event::new(Kind::Input, Peer::Instance(0), 7)
}

fn done() -> Event {
    Event::new(Kind::Action, Peer::Environment, 4095)
}

#[test]
fn a_table(rt: HostRuntime) -> Result<(), Fail> {
    let heap = rt.alloc();
    check_copy(
        &rt,
        heap,
        &Table::new(&[2, 0, 2], &[sent(), done(), received(), done()]),
    )?;
    check_copy(&rt, heap, &Table::new(&[], &[]))?;
    check_copy(&rt, heap, &Table::new(&[0; 32], &[]))?;
    check_copy(&rt, heap, &Table::new(&[4096], &[done(); 4096]))
}

#[test]
fn its_events(rt: HostRuntime) -> Result<(), Fail> {
    let flat = Flat::new(
        rt.alloc(),
        &Table::new(&[2, 0, 2], &[sent(), done(), received(), done()]),
    )?;
    assert_eq!(rt; flat.width(), 3);
    assert_eq!(rt; flat.span(), 8);
    assert_eq!(rt; flat.count(0), 2);
    assert_eq!(rt; flat.count(1), 0);
    assert_eq!(rt; flat.event(0, 0), sent());
    assert_eq!(rt; flat.event(0, 2), NO_EVENT);
    assert_eq!(rt; flat.event(2, 0), received());
    assert_eq!(rt; flat.event(2, 1), done());
    Ok(())
}

#[test]
fn a_poll(rt: HostRuntime) -> Result<(), Fail> {
    let heap = rt.alloc();
    check_copy(&rt, heap, &Poll::new(0, 0))?;
    check_copy(&rt, heap, &Poll::new(2, 3))?;
    check_copy(&rt, heap, &Poll::new(31, 32))
}

#[test]
fn spoiled_charts(rt: HostRuntime) -> Result<(), Fail> {
    let heap = rt.alloc();
    check_copy(&rt, heap, &Table::new(&[1, 0, 0], &[sent()]))?;
    check_copy(&rt, heap, &Table::new(&[1], &[]))?;
    check_copy(&rt, heap, &Poll::new(32, 1))
}

#[test]
fn the_fault_of_a_spoiled_chart(rt: HostRuntime) -> Result<(), Fail> {
    let events = [sent()];
    let table = Table::new(&[1, 0, 0], &events);
    let flat = Flat::new(rt.alloc(), &table)?;
    assert!(rt; flat.fault().is_some());
    assert_eq!(rt; flat.fault(), table.fault());
    assert_eq!(rt; flat.width(), 0);
    assert_eq!(rt; flat.count(0), 0);
    assert_eq!(rt; flat.event(0, 0), NO_EVENT);
    Ok(())
}

#[test]
fn copies_of_copies(rt: HostRuntime) -> Result<(), Fail> {
    let heap = rt.alloc();
    let poll = Poll::new(3, 4);
    let mut top = Flat::new(heap, &poll)?;
    for _ in 0..8 {
        top = Flat::new(heap, &top)?;
    }
    check_same(&rt, &top, &poll);
    Ok(())
}
