ghost use Rattle.std.specs.Prelude.{◌≡◌, length};
ghost use Rattle.charts.specs.Lists.{count_of, size};
ghost use Rattle.copies.specs.Kept.{kept};
ghost use Rattle.copies.specs.Slots.{slot_at};

use crate::grid::Grid;
use crate::indexed::Indexed;
use crate::linker::Linker;
use crate::noting::note_messages;
use crate::parts::Slot;
use charts::{Chart, Fault};
use messages::MessagePlaces;

impl Indexed {
    // A copy of any chart.
    pub fn new<C: Chart>(chart: &C) -> Indexed
        ensures lists { kept result ≡ C.lists chart.now }
        ensures fault { result.fault ≡ C.trouble chart.now }
    {
        let fault = chart.fault();
        let mut grid = Grid::new(chart);
        let mut places = MessagePlaces::new();
        note_messages(&mut places, &grid);
        let linker = Linker {
            width: grid.width,
            events: grid.events,
            places: &places,
        };
        linker.fill(&mut grid.slots);
        grid.rank();
        Indexed { grid, fault }
    }

    // The fault of a spoiled chart.
    pub fn fault(&self) -> Option<Fault>
        ensures { result ≡ self.now.fault }
    {
        self.fault
    }

    // The number of instances.
    #[tactic(auto, using(crate::proofs::Grids::grid_width))]
    pub fn width(&self) -> usize
        ensures { result ≡ length (kept self.now) }
    {
        self.grid.width
    }

    // The number of events on instance i, 0 where there is no such instance.
    pub fn count(&self, i: usize) -> usize
        ensures { result ≡ count_of (kept self.now) i }
    {
        self.grid.column(i).len()
    }

    // The number of events on all instances.
    #[tactic(auto, using(crate::proofs::Grids::grid_size))]
    pub fn events(&self) -> usize
        ensures { result ≡ size (kept self.now) }
    {
        self.grid.events
    }

    // Event k of instance i with what is fixed of it, none where there is no such event.
    #[tactic(auto, using(crate::proofs::Kept::kept_slot, crate::proofs::Kept::slot_outside))]
    pub fn slot(&self, i: usize, k: usize) -> Option<Slot>
        ensures { result ≡ slot_at (kept self.now) i k }
    {
        if i >= self.width() {
            return None;
        }
        self.grid.column(i).get(k).copied()
    }
}
