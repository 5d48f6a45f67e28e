ghost use Rattle.std.specs.Prelude.{◌≡◌, ◌≤◌, length, replicate};
ghost use Rattle.charts.specs.Events.{no_event};
ghost use Rattle.words.specs.Sentences.{sentences};
ghost use Rattle.items.specs.Surveys.{items_in};
ghost use Rattle.grammar.specs.Brackets.{events_of};
ghost use Rattle.texts.specs.Directories.{Named, Knows, named_in};
ghost use Rattle.texts.specs.Resolving.{AreBytes};
ghost use Rattle.texts.specs.Drafts.{Draft, Written, HasRow, Writes, lengths_from, with_read, unknown_by};
ghost use Rattle.texts.specs.Filled.{Fills};
ghost use Rattle.texts.specs.Whole.{Whole};

use crate::directory::Directory;
use charts::Event;
use items::{Item, Parser};
use words::Fault;

// How many rows of the tables of a chart are written: the instances that have ended, the events since then, and all events.
#[derive(Clone, Copy)]
pub(crate) struct Filling {
    pub(crate) instances: usize,
    pub(crate) count: u16,
    pub(crate) events: usize,
}

impl Filling {
    // Writes what an item brings; an event whose peer is unknown is refused.
    pub(crate) fn take(
        &mut self,
        directory: &Directory,
        item: Item,
        lengths: &mut [u16],
        events: &mut [Event],
    ) -> Result<(), Fault>
        requires row { HasRow self.old (length lengths.old) (length events.old) item }
        requires bytes { AreBytes directory.now.instances }
        ensures writes { (s : Named) (d : Draft) → Knows directory.now s → Written self.old lengths.old events.old d → Writes (unknown_by s.instances item.entry) (with_read s d item.entry) result self.new lengths.new events.new }
        ensures length_room { length lengths.new ≡ length lengths.old }
        ensures event_room { length events.new ≡ length events.old }
    {
        match item {
            Item::Event(event) => {
                events[self.events] = directory.resolve(&event)?;
                self.events += 1;
                self.count += 1;
            }
            Item::InstanceEnd => {
                lengths[self.instances] = self.count;
                self.instances += 1;
                self.count = 0;
            }
            Item::Instance(_) | Item::End => {}
        }
        Ok(())
    }
}

// Fills the tables of lengths and of events from a text.
pub(crate) fn fill_tables(
    text: &[u8],
    directory: &Directory,
    lengths: &mut [u16],
    events: &mut [Event],
) -> Result<(), Fault>
    requires whole { Whole (sentences text.now) }
    requires knows { Knows directory.now (named_in (items_in (sentences text.now))) }
    requires few_instances { length (named_in (items_in (sentences text.now))).instances ≤ 32 }
    requires length_rows { length (lengths_from 0 (items_in (sentences text.now))) ≤ length lengths.old }
    requires event_rows { length (events_of (items_in (sentences text.now))) ≤ length events.old }
    requires no_lengths { lengths.old ≡ replicate (length lengths.old) 0 }
    requires no_events { events.old ≡ replicate (length events.old) no_event }
    ensures fills { Fills (named_in (items_in (sentences text.now))) (items_in (sentences text.now)) (length lengths.old) (length events.old) result lengths.new events.new }
    ensures length_room { length lengths.new ≡ length lengths.old }
    ensures event_room { length events.new ≡ length events.old }
{
    let (_, mut parser) = Parser::begin(text)?;
    let mut filling = Filling {
        instances: 0,
        count: 0,
        events: 0,
    };
    loop {
        let item = parser.next()?;
        if item.is_end() {
            return Ok(());
        }
        filling.take(directory, item, lengths, events)?;
    }
}
