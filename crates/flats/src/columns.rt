ghost use Rattle.std.specs.Prelude.{◌≡◌, vec_len};
ghost use Rattle.charts.specs.Lists.{count_of};

use charts::{Chart, Event};

// Where the events of an instance stand among all events: from the start on, so many.
#[derive(Clone, Copy)]
pub(crate) struct Column {
    pub(crate) start: usize,
    pub(crate) count: usize,
}

impl Column {
    // The column of instance i, behind the events so far.
    pub(crate) fn new<C: Chart>(events: &Vec<Event>, chart: &C, i: usize) -> Column
        ensures { result ≡ record { start = vec_len events.now; count = count_of (C.lists chart.now) i } }
    {
        Column {
            start: events.len(),
            count: chart.count(i),
        }
    }
}
