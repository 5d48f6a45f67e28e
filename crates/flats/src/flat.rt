ghost use Rattle.std.specs.Prelude.{◌≡◌, IfOk};
ghost use Rattle.charts.specs.Judged.{summed};
ghost use Rattle.charts.specs.Lists.{column};
ghost use Rattle.flats.specs.FlatLists.{counts, Placed, flat_trouble, flat_lists, flat_judged};

use crate::columns::Column;
use crate::copies::push_events;
use charts::{Chart, Event, Fault, NO_EVENT, Summary};
use std::alloc::{AllocError, Global};

// A chart that owns its events: a column for each instance, and the events, instance after instance.
#[derive(Drop)]
pub struct Flat {
    columns: Vec<Column>,
    events: Vec<Event>,
    verdict: Result<Summary, Fault>,
    ghost placed: { Placed columns.items },
    ghost judged: { verdict ≡ summed (flat_trouble verdict (counts columns.items) events.items) (flat_lists verdict (counts columns.items) events.items) },
}

impl Flat {
    // An owned copy of any chart. Want of memory says nothing.
    pub fn new<C: Chart>(heap: Global, chart: &C) -> Result<Flat, AllocError>
        ensures { IfOk result (λ x. (flat_trouble x.verdict (counts x.columns.items) x.events.items ≡ C.Chart.trouble chart.now) × (flat_lists x.verdict (counts x.columns.items) x.events.items ≡ C.Chart.lists chart.now)) }
    {
        let mut columns = Vec::new(heap);
        let mut events = Vec::new(heap);
        for i in 0..chart.width() {
            columns.push(Column::new(&events, chart, i))?;
            push_events(&mut events, chart, i)?;
        }
        let verdict = chart.summary();
        Ok(Flat {
            columns,
            events,
            verdict,
        })
    }

    // The events of instance i, none where there is no such instance.
    fn events_of(&self, i: usize) -> &[Event]
        ensures { result.now ≡ column (flat_lists self.now.verdict (counts self.now.columns.items) self.now.events.items) i }
    {
        match self.verdict {
            Ok(_) if i < self.columns.len() => {
                let Column { start, count } = self.columns[i];
                &self.events.as_slice()[start..start + count]
            }
            Ok(_) => &[],
            Err(_) => &[],
        }
    }
}

impl Chart for Flat {
    ghost lists = { λ x. flat_lists x.verdict (counts x.columns.items) x.events.items };

    ghost trouble = { λ x. flat_trouble x.verdict (counts x.columns.items) x.events.items };

    ghost sound = { λ x. flat_judged x.verdict (counts x.columns.items) x.events.items };

    fn summary(&self) -> Result<Summary, Fault> {
        self.verdict
    }

    fn count(&self, i: usize) -> usize {
        self.events_of(i).len()
    }

    fn event(&self, i: usize, k: usize) -> Event {
        let events = self.events_of(i);
        if k < events.len() {
            events[k]
        } else {
            NO_EVENT
        }
    }
}
