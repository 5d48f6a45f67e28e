ghost use Rattle.std.specs.Prelude.{◌≡◌, ℕ, ◌+◌, ◌<◌, ◌≤◌, length, slice_index_or};
ghost use Rattle.charts.specs.Lists.{column, count_of};
ghost use Rattle.copies.specs.Grids.{no_slot, place_of};
ghost use Rattle.copies.specs.Kept.{grid_lists};
ghost use Rattle.copies.specs.Lists.{events_in};

use crate::grid::Grid;
use crate::parts::Slot;
use std::ops::Range;

impl Grid {
    // Where the events of instance i stand among the slots, none where there is no such instance.
    pub(crate) fn places(&self, i: usize) -> Range<usize>
        ensures start { i < self.now.width → result.start ≡ place_of self.now.columns i 0 }
        ensures count { result.end ≡ result.start + count_of (grid_lists self.now) i }
        ensures within { result.end ≤ 4096 }
    {
        match self.columns[..self.width].get(i) {
            Some(column) => {
                let start = usize::from(column.start);
                start..start + usize::from(column.count)
            }
            None => 0..0,
        }
    }

    // The slots of instance i, none where there is no such instance.
    pub(crate) fn column(&self, i: usize) -> &[Slot]
        ensures events { events_in result.now ≡ column (grid_lists self.now) i }
        ensures count { length result.now ≡ count_of (grid_lists self.now) i }
        ensures few { length result.now ≤ 4096 }
        ensures places { (k : ℕ) → k < length result.now → slice_index_or result.now k no_slot ≡ slice_index_or self.now.slots (place_of self.now.columns i k) no_slot }
    {
        let places = self.places(i);
        &self.slots[places]
    }
}
