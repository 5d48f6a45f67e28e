ghost use Rattle.std.specs.Prelude.{◌≡◌, MatchResult};
ghost use Rattle.charts.specs.Judged.{summed};
ghost use Rattle.checks.specs.Checked.{checked};
ghost use Rattle.checks.specs.SoundTable.{SoundTable};
ghost use Rattle.tables.specs.TableLists.{table_lists};

use crate::passes::check;
use crate::spans::span_of;
use charts::{Event, Fault, Summary};

// The size of the table's chart, or what is wrong with it.
pub(crate) fn judge(lengths: &[u16], events: &[Event]) -> Result<Summary, Fault>
    ensures judged { result ≡ summed (checked lengths.now events.now) (table_lists lengths.now events.now) }
    ensures sound { MatchResult result (λ _. SoundTable lengths.now events.now) (λ _. SoundTable lengths.now events.now → ⊥) }
{
    check(lengths, events)?;
    Ok(Summary {
        width: lengths.len(),
        events: events.len(),
        span: span_of(events),
    })
}
