use charts::{Chart, Event};
use tables::Table;
use texts::{NO_NAME, Name, read};

const NO_EVENT: Event = Event {
    kind: 0,
    peer: 0,
    number: 0,
};

fn event(kind: u8, peer: u8, number: u16) -> Event {
    Event { kind, peer, number }
}

fn name(start: usize, length: usize) -> Name {
    Name { start, length }
}

// The span of the chart over the first 3 lengths and 5 events, where it has no fault.
fn spanned(lengths: &[u16], events: &[Event]) -> Option<usize> {
    let lengths = lengths.get(..3)?;
    let events = events.get(..5)?;
    let table = Table::new(lengths, events);
    if table.fault().is_some() {
        return None;
    }
    Some(table.span())
}

const LATE: &[u8] = b"msc late;
instance log; out text to bus; endinstance;
instance bus; in text from log; in ring from siren; endinstance;
instance siren; out ring to bus; action sound; endinstance;
endmsc;
";

#[test]
fn tables_of_late(rt: HostRuntime) {
    let mut lengths = [7; 4];
    let mut events = [event(7, 7, 7); 6];
    let mut instances = [name(7, 7); 4];
    let mut messages = [name(7, 7); 3];
    let mut actions = [name(7, 7); 3];
    let answer = match read(
        LATE,
        &mut lengths,
        &mut events,
        &mut instances,
        &mut messages,
        &mut actions,
    ) {
        Ok(r) => Some((r.title.start, r.instances, r.events, r.messages, r.actions)),
        Err(_) => None,
    };
    assert_eq!(rt; answer, Some((4, 3, 5, 2, 1)));
    assert_eq!(rt; lengths, [1, 2, 2, 0]);
    let rows = [
        event(1, 1, 0),
        event(2, 0, 0),
        event(2, 2, 1),
        event(1, 1, 1),
        event(3, 255, 0),
        NO_EVENT,
    ];
    assert_eq!(rt; events, rows);
    assert_eq!(rt;
        instances,
        [name(19, 3), name(63, 3), name(128, 5), NO_NAME]
    );
    assert_eq!(rt; messages, [name(28, 4), name(89, 4), NO_NAME]);
    assert_eq!(rt; actions, [name(159, 5), NO_NAME, NO_NAME]);
    assert_eq!(rt; spanned(&lengths, &events), Some(2));
}

// Messages and actions are numbered by their first appearance, each for themselves; names differ in case; a peer may be named before its instance.
#[test]
fn numbers_by_first_appearance(rt: HostRuntime) {
    let text = b"msc n;instance b;action y;out q to A;action x;in p from a;endinstance;\
instance a;action x;action X;out p to b;endinstance;\
instance A;in e from env;in q from b;action y;endinstance;endmsc;";
    let mut lengths = [7; 3];
    let mut events = [NO_EVENT; 10];
    let mut instances = [NO_NAME; 3];
    let mut messages = [NO_NAME; 3];
    let mut actions = [NO_NAME; 3];
    let said = read(
        text,
        &mut lengths,
        &mut events,
        &mut instances,
        &mut messages,
        &mut actions,
    )
    .is_ok();
    assert!(rt; said);
    assert_eq!(rt; lengths, [4, 3, 3]);
    let rows = [
        event(3, 255, 0),
        event(1, 2, 0),
        event(3, 255, 1),
        event(2, 1, 1),
        event(3, 255, 1),
        event(3, 255, 2),
        event(1, 0, 1),
        event(2, 255, 2),
        event(2, 0, 0),
        event(3, 255, 0),
    ];
    assert_eq!(rt; events, rows);
}

// A chart that can only get stuck is read: it is sound.
#[test]
fn stuck_charts_are_read(rt: HostRuntime) {
    let cross: &[u8] =
        b"msc cross;instance a;in p from b;out q to b;endinstance;instance b;in q from a;out p to a;endinstance;endmsc;";
    let back: &[u8] = b"msc back;instance a;in m from a;out m to a;endinstance;endmsc;";
    for (text, width) in [(cross, 2), (back, 1)] {
        let mut lengths = [0; 2];
        let mut events = [NO_EVENT; 4];
        let mut instances = [NO_NAME; 2];
        let mut messages = [NO_NAME; 2];
        let answer = match read(
            text,
            &mut lengths,
            &mut events,
            &mut instances,
            &mut messages,
            &mut [],
        ) {
            Ok(r) => Some(r.instances),
            Err(_) => None,
        };
        assert_eq!(rt; answer, Some(width));
    }
}
