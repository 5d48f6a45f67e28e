use charts::Event;

// A text from a log to a bus, and a ring from a siren, which then sounds: log, bus and siren are instances 0, 1 and 2.
pub(crate) const LENGTHS: [u16; 3] = [1, 2, 2];

pub(crate) const EVENTS: [Event; 5] = [
    Event {
        kind: 1,
        peer: 1,
        number: 0,
    },
    Event {
        kind: 2,
        peer: 0,
        number: 0,
    },
    Event {
        kind: 2,
        peer: 2,
        number: 1,
    },
    Event {
        kind: 1,
        peer: 1,
        number: 1,
    },
    Event {
        kind: 3,
        peer: 255,
        number: 0,
    },
];

// A full log of that chart.
pub(crate) const LATE: [u8; 53] = [
    3, 0, 1, 0, 3, 5, 0, // head
    4, 0, 2, 0, 0, 1, 0, 0, // the text is sent
    4, 0, 2, 0, 1, 2, 0, 0, // and received
    4, 0, 2, 0, 2, 1, 1, 0, // the ring is sent
    4, 0, 2, 0, 1, 2, 1, 0, // and received
    4, 0, 2, 0, 2, 3, 0, 0, // the siren sounds
    2, 0, 3, 0, 5, 0, // end
];
