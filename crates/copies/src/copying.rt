ghost use Rattle.std.specs.Prelude.{◌≡◌, length};
ghost use Rattle.charts.specs.Lists.{column, count_of};
ghost use Rattle.copies.specs.Kept.{grid_lists};
ghost use Rattle.copies.specs.Lists.{events_in};

use crate::grid::Grid;
use crate::parts::{Column, NO_SLOT, Slot};
use charts::Chart;

// Copies the events of instance i, one into each slot.
fn copy_column<C: Chart>(slots: &mut [Slot], chart: &C, i: usize)
    requires { length slots.old ≡ count_of (C.lists chart.now) i }
    ensures { events_in slots.new ≡ column (C.lists chart.now) i }
{
    for (k, slot) in slots.iter_mut().enumerate() {
        *slot = Slot::alone(chart.event(i, k));
    }
}

impl Grid {
    // The events of any chart; none where it is spoiled.
    pub(crate) fn new<C: Chart>(chart: &C) -> Grid
        ensures { grid_lists result ≡ C.lists chart.now }
    {
        let mut columns = [Column { start: 0, count: 0 }; 32];
        let mut slots = [NO_SLOT; 4096];
        let mut events = 0;
        let width = chart.width();
        for i in 0..width {
            let count = chart.count(i);
            columns[i] = Column {
                start: events as u16,
                count: count as u16,
            };
            copy_column(&mut slots[events..events + count], chart, i);
            events += count;
        }
        Grid {
            width,
            events,
            columns,
            slots,
        }
    }
}
