ghost use Rattle.std.specs.Prelude.{◌≡◌, ◌<◌, length, MatchOption, MatchResult, slice_index_or};
ghost use Rattle.charts.specs.Events.{no_event};
ghost use Rattle.charts.specs.Judged.{summed};
ghost use Rattle.charts.specs.Lists.{event_of};
ghost use Rattle.checks.specs.Checked.{checked};
ghost use Rattle.checks.specs.SoundTable.{SoundTable};
ghost use Rattle.tables.specs.TableLists.{table_lists, table_judged};

use crate::layout::total;
use crate::verdicts::judge;
use charts::{Chart, Event, Fault, NO_EVENT, Summary};

// A chart over lent slices: a length for each instance, and the events, instance after instance.
#[derive(Clone, Copy)]
pub struct Table<'l, 'e> {
    lengths: &'l [u16],
    events: &'e [Event],
    verdict: Result<Summary, Fault>,
    ghost judged: { verdict ≡ summed (checked lengths.now events.now) (table_lists lengths.now events.now) },
}

impl<'l, 'e> Table<'l, 'e> {
    // The chart of any two slices; a table that breaks a rule is spoiled by the first one that it breaks.
    pub fn new(lengths: &'l [u16], events: &'e [Event]) -> Table<'l, 'e>
        ensures kept { (result.lengths.now ≡ lengths.now) × (result.events.now ≡ events.now) }
        ensures judged { result.verdict ≡ summed (checked lengths.now events.now) (table_lists lengths.now events.now) }
        ensures sound { MatchResult result.verdict (λ _. SoundTable lengths.now events.now) (λ _. SoundTable lengths.now events.now → ⊥) }
    {
        let verdict = judge(lengths, events);
        Table {
            lengths,
            events,
            verdict,
        }
    }

    // Where event k of instance i stands among the events.
    fn place(&self, i: usize, k: usize) -> Option<usize>
        ensures { MatchOption result (event_of (table_lists self.now.lengths.now self.now.events.now) i k ≡ no_event) (λ at. (at < length self.now.events.now) × (slice_index_or self.now.events.now at no_event ≡ event_of (table_lists self.now.lengths.now self.now.events.now) i k)) }
    {
        if k >= self.count(i) {
            return None;
        }
        Some(total(&self.lengths[..i]) + k)
    }
}

impl<'l, 'e> Chart for Table<'l, 'e> {
    ghost lists = { λ t. table_lists t.lengths.now t.events.now };

    ghost trouble = { λ t. checked t.lengths.now t.events.now };

    ghost sound = { λ t. table_judged t.lengths.now t.events.now };

    fn summary(&self) -> Result<Summary, Fault> {
        self.verdict
    }

    // An arm and no `map_or`: what is promised of a spoiled chart, 0, stands by itself.
    fn count(&self, i: usize) -> usize {
        match self.verdict {
            Ok(_) => self.lengths.get(i).map_or(0, |n| usize::from(*n)),
            Err(_) => 0,
        }
    }

    fn event(&self, i: usize, k: usize) -> Event {
        self.place(i, k).map_or(NO_EVENT, |at| self.events[at])
    }
}
