use charts::{Chart, Event, Kind, Peer};
use copies::{Indexed, Slot};
use std::process::Abort;
use std::test::Fail;

// Holds the copy of a chart against the chart, also past its instances and events.
pub(crate) fn check_copy<C: Chart>(rt: &impl Abort, chart: &C) -> Result<(), Fail> {
    let copy = Indexed::new(chart);
    assert_eq!(rt; copy.fault(), chart.fault());
    assert_eq!(rt; copy.width(), chart.width());
    let mut events = 0usize;
    for instance in 0..33u8 {
        let i = usize::from(instance);
        assert_eq!(rt; copy.count(i), chart.count(i));
        events = events.saturating_add(chart.count(i));
        for k in 0..chart.count(i).saturating_add(2) {
            check_slot(rt, &copy, chart, instance, k)?;
        }
    }
    assert_eq!(rt; copy.events(), events);
    Ok(())
}

fn check_slot<C: Chart>(
    rt: &impl Abort,
    copy: &Indexed,
    chart: &C,
    instance: u8,
    k: usize,
) -> Result<(), Fail> {
    let i = usize::from(instance);
    match copy.slot(i, k) {
        Some(slot) => {
            assert!(rt; k < chart.count(i));
            assert_eq!(rt; slot.event, chart.event(i, k));
            check_mate(rt, copy, instance, k, slot)
        }
        None => {
            assert!(rt; k >= chart.count(i));
            Ok(())
        },
    }
}

// Where the message goes between instances, the mate is the other event of the message, and its mate is the event itself.
fn check_mate(
    rt: &impl Abort,
    copy: &Indexed,
    instance: u8,
    k: usize,
    slot: Slot,
) -> Result<(), Fail> {
    let event = slot.event;
    let alone = Slot {
        event,
        mate: 0,
        ahead: 0,
    };
    let peer = match Peer::from(event.peer) {
        Peer::Instance(peer) if usize::from(peer) < copy.width() => peer,
        _ => {
            assert_eq!(rt; slot, alone);
            return Ok(());
        }
    };
    let other = match Kind::try_from(event.kind) {
        Ok(Kind::Output) => Kind::Input,
        Ok(Kind::Input) => Kind::Output,
        Ok(Kind::Action) | Err(_) => {
            assert_eq!(rt; slot, alone);
            return Ok(());
        }
    };
    let mate = copy.slot(usize::from(peer), usize::from(slot.mate));
    let event = Event::new(other, Peer::Instance(instance), event.number);
    assert_eq!(rt; mate.map(|mate| mate.event), Some(event));
    assert_eq!(rt; mate.map(|mate| usize::from(mate.mate)), Some(k));
    Ok(())
}
