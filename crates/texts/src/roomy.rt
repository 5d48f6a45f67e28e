ghost use Rattle.std.specs.Prelude.{◌≡◌, IfOk};
ghost use Rattle.texts.specs.Roomy.{ReadsText};

use crate::reader::read;
use crate::reading::Reading;
use crate::rows::{NO_NAME, Name};
use charts::{Event, MOST_EVENTS, MOST_INSTANCES, NO_EVENT};
use words::Fault;

// The tables of a chart text, with room for every chart.
#[derive(Drop)]
pub struct TextTables {
    pub lengths: [u16; MOST_INSTANCES],
    pub events: [Event; MOST_EVENTS],
    pub instances: [Name; MOST_INSTANCES],
    pub messages: [Name; MOST_EVENTS],
    pub actions: [Name; MOST_EVENTS],
}

impl TextTables {
    // Reads a chart text: its reading and its tables, or its first fault.
    pub fn read(text: &[u8]) -> Result<(Reading<'_>, TextTables), Fault>
        ensures reads { ReadsText text.now result }
        ensures of_text { IfOk result (λ read. read.0.text.now ≡ text.now) }
    {
        let mut lengths = [0; MOST_INSTANCES];
        let mut events = [NO_EVENT; MOST_EVENTS];
        let mut instances = [NO_NAME; MOST_INSTANCES];
        let mut messages = [NO_NAME; MOST_EVENTS];
        let mut actions = [NO_NAME; MOST_EVENTS];
        let reading = read(
            text,
            &mut lengths,
            &mut events,
            &mut instances,
            &mut messages,
            &mut actions,
        )?;
        let tables = TextTables {
            lengths,
            events,
            instances,
            messages,
            actions,
        };
        Ok((reading, tables))
    }
}
