use crate::built::many;
use crate::cases::check_refused;
use charts::Event;
use std::test::Fail;
use texts::{Name, read};

const NO_EVENT: Event = Event {
    kind: 0,
    peer: 0,
    number: 0,
};

const NO_NAME: Name = Name {
    start: 0,
    length: 0,
};

// How many instances, events and actions the text has, and the number of its last event, with the greatest tables of a chart.
fn counted(text: &[u8]) -> Option<(usize, usize, usize, u16)> {
    let mut lengths = [0; 32];
    let mut events = [NO_EVENT; 4096];
    let mut instances = [NO_NAME; 32];
    let mut messages = [NO_NAME; 4096];
    let mut actions = [NO_NAME; 4096];
    match read(
        text,
        &mut lengths,
        &mut events,
        &mut instances,
        &mut messages,
        &mut actions,
    ) {
        Ok(r) => Some((r.instances, r.events, r.actions, events[4095].number)),
        Err(_) => None,
    }
}

#[test]
fn as_many_as_a_chart_has(rt: HostRuntime) -> Result<(), Fail> {
    let text = many(rt.alloc(), 32, 4096)?;
    assert_eq!(rt; counted(text.as_slice()), Some((32, 4096, 4096, 4095)));
    Ok(())
}

#[test]
fn one_more(rt: HostRuntime) -> Result<(), Fail> {
    let wide = many(rt.alloc(), 33, 4096)?;
    check_refused(&rt, wide.as_slice(), 11, 0);
    let long = many(rt.alloc(), 32, 4097)?;
    check_refused(&rt, long.as_slice(), 12, 0);
    // instances before events
    let both = many(rt.alloc(), 33, 4097)?;
    check_refused(&rt, both.as_slice(), 11, 0);
    // a fault in the words before both
    let cut = both.as_slice();
    let end = cut.len().saturating_sub(1);
    check_refused(&rt, &cut[..end], 24, end);
    Ok(())
}
