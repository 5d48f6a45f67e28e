ghost use Rattle.plays.specs.Troubles.{Answers};
ghost use Rattle.plays.specs.ChartTexts.{chart_of, put_on};

use crate::parts::Unplayed;
use piles::Pile;
use std::alloc::Global;
use tables::Table;
use texts::TextTables;

// The chart of a text, put on top of the pile, or the text's fault. The tables are those of the greatest chart.
pub(crate) fn push_chart(pile: &mut Pile, heap: Global, text: &[u8]) -> Result<(), Unplayed>
    ensures { Answers (λ _. pile.new) (put_on pile.old (chart_of text.now)) result }
{
    let (reading, tables) = TextTables::read(text)?;
    let table = Table::new(
        &tables.lengths[..reading.instances],
        &tables.events[..reading.events],
    );
    Ok(pile.push(heap, &table)?)
}
