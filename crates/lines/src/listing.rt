ghost use Rattle.std.specs.Prelude.{◌≡◌, true, length};
ghost use Rattle.std.specs.List.{list_all};
ghost use Rattle.lines.specs.Names.{stands_in};

use crate::rows::names_in;
use charts::Event;
use tables::Table;
use texts::{Name, Reading};

// A chart text as it was read, with the rows of its tables that are in use. Each name lies in the text and has 1 to 16 bytes.
#[derive(Clone, Copy)]
pub struct Listing<'t, 'a> {
    pub(crate) reading: Reading<'t>,
    pub(crate) table: Table<'a, 'a>,
    pub(crate) instances: &'a [Name],
    pub(crate) messages: &'a [Name],
    pub(crate) actions: &'a [Name],
    ghost instances_stand: { list_all (stands_in (length reading.text.now)) instances.now ≡ true },
    ghost messages_stand: { list_all (stands_in (length reading.text.now)) messages.now ≡ true },
    ghost actions_stand: { list_all (stands_in (length reading.text.now)) actions.now ≡ true },
}

impl<'t, 'a> Listing<'t, 'a> {
    ghost use Rattle.lines.specs.Listings.{ListsReading};

    // The listing of a reading and its tables; none where a table has fewer rows than the reading counts, or a row in use is no name in the text.
    pub fn of(
        reading: Reading<'t>,
        lengths: &'a [u16],
        events: &'a [Event],
        instances: &'a [Name],
        messages: &'a [Name],
        actions: &'a [Name],
    ) -> Option<Listing<'t, 'a>>
        ensures { ListsReading reading.entry lengths.now events.now instances.now messages.now actions.now result }
    {
        let size = reading.text.len();
        let lengths = lengths.get(..reading.instances)?;
        let events = events.get(..reading.events)?;
        let instances = names_in(instances, reading.instances, size)?;
        let messages = names_in(messages, reading.messages, size)?;
        let actions = names_in(actions, reading.actions, size)?;
        Some(Listing {
            reading,
            table: Table::new(lengths, events),
            instances,
            messages,
            actions,
        })
    }

    // The chart over the rows in use.
    pub fn chart(&self) -> Table<'a, 'a>
        ensures { result ≡ self.now.table }
    {
        self.table
    }
}
