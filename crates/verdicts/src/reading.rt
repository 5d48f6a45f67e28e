ghost use Rattle.std.specs.Prelude.{◌≡◌, take};
ghost use Rattle.verdicts.specs.Charts.{ReadsChart};

use crate::charted::Charted;
use tables::Table;
use texts::TextTables;
use words::Fault;

impl Charted {
    // The chart of a text, or the text's fault.
    pub(crate) fn of(text: &[u8]) -> Result<Charted, Fault>
        ensures { ReadsChart text.now result }
    {
        let (reading, tables) = TextTables::read(text)?;
        let TextTables {
            lengths,
            events,
            instances: names,
            ..
        } = tables;
        Ok(Charted {
            lengths,
            events,
            names,
            width: reading.instances,
            count: reading.events,
        })
    }

    // The chart over the rows in use.
    pub(crate) fn table(&self) -> Table<'_, '_>
        ensures lengths { result.lengths.now ≡ take self.now.width self.now.lengths }
        ensures events { result.events.now ≡ take self.now.count self.now.events }
    {
        Table::new(&self.lengths[..self.width], &self.events[..self.count])
    }
}
