use charts::Event;
use std::process::Abort;
use texts::{NO_NAME, Name, read};

const SOME_EVENT: Event = Event {
    kind: 7,
    peer: 7,
    number: 7,
};

const SOME_NAME: Name = Name {
    start: 7,
    length: 7,
};

const NO_EVENT: Event = Event {
    kind: 0,
    peer: 0,
    number: 0,
};

// The text is refused with this number at this byte, and the tables are zeros then.
pub(crate) fn check_refused(rt: &impl Abort, text: &[u8], number: u8, byte: usize) {
    let mut lengths = [7; 32];
    let mut events = [SOME_EVENT; 4096];
    let mut instances = [SOME_NAME; 32];
    let mut messages = [SOME_NAME; 4096];
    let mut actions = [SOME_NAME; 4096];
    let said = match read(
        text,
        &mut lengths,
        &mut events,
        &mut instances,
        &mut messages,
        &mut actions,
    ) {
        Ok(_) => (0, 0),
        Err(fault) => (u8::from(fault.cause), fault.byte),
    };
    assert_eq!(rt; said, (number, byte));
    assert_eq!(rt; lengths, [0; 32]);
    assert_eq!(rt; events, [NO_EVENT; 4096]);
    assert_eq!(rt; instances, [NO_NAME; 32]);
    assert_eq!(rt; messages, [NO_NAME; 4096]);
    assert_eq!(rt; actions, [NO_NAME; 4096]);
}

// How many rows a text of so many instances, events, messages and actions is told to use, with tables of so many rows.
pub(crate) fn check_rows(
    rt: &impl Abort,
    text: &[u8],
    rows: [usize; 5],
    said: Result<[usize; 4], (u8, usize)>,
) {
    let mut lengths = [7; 40];
    let mut events = [SOME_EVENT; 40];
    let mut instances = [SOME_NAME; 40];
    let mut messages = [SOME_NAME; 40];
    let mut actions = [SOME_NAME; 40];
    let [l, e, i, m, a] = rows;
    let answer = match read(
        text,
        &mut lengths[..l.min(40)],
        &mut events[..e.min(40)],
        &mut instances[..i.min(40)],
        &mut messages[..m.min(40)],
        &mut actions[..a.min(40)],
    ) {
        Ok(reading) => Ok([
            reading.instances,
            reading.events,
            reading.messages,
            reading.actions,
        ]),
        Err(fault) => Err((u8::from(fault.cause), fault.byte)),
    };
    assert_eq!(rt; answer, said);
}
