use crate::cases::{Counts, reading, row};
use charts::{Event, Kind, Peer};
use lines::Listing;
use texts::Name;

// A chart of three instances and five events.
const TEXT: &[u8] =
    b"msc late; instance log; out text to disp; out end to disp; endinstance; instance disp; in end from log; in text from log; action show; endinstance; instance idle; endinstance; endmsc;";

// The tables of a chart of at most three instances and five events.
#[derive(Clone, Copy)]
pub(crate) struct Tables {
    pub(crate) counts: Counts,
    pub(crate) lengths: [u16; 3],
    pub(crate) events: [Event; 5],
    pub(crate) instances: [Name; 3],
    pub(crate) messages: [Name; 2],
    pub(crate) actions: [Name; 2],
}

// The tables of the chart, with a row of actions that is not in use.
pub(crate) fn late_tables() -> Tables {
    Tables {
        counts: Counts {
            instances: 3,
            events: 5,
            messages: 2,
            actions: 1,
        },
        lengths: [2, 3, 0],
        events: [
            Event::new(Kind::Output, Peer::Instance(1), 0),
            Event::new(Kind::Output, Peer::Instance(1), 1),
            Event::new(Kind::Input, Peer::Instance(0), 1),
            Event::new(Kind::Input, Peer::Instance(0), 0),
            Event::new(Kind::Action, Peer::Environment, 0),
        ],
        instances: [row(TEXT, b"log"), row(TEXT, b"disp"), row(TEXT, b"idle")],
        messages: [row(TEXT, b"text"), row(TEXT, b"end")],
        actions: [
            row(TEXT, b"show"),
            Name {
                start: 0,
                length: 0,
            },
        ],
    }
}

impl Tables {
    // Their listing, if there is one.
    pub(crate) fn listing(&self) -> Option<Listing<'static, '_>> {
        let reading = reading(TEXT, row(TEXT, b"late"), self.counts)?;
        Listing::of(
            reading,
            &self.lengths,
            &self.events,
            &self.instances,
            &self.messages,
            &self.actions,
        )
    }
}
