ghost use Rattle.std.specs.Prelude.{◌≡◌, ◌≤◌, true, length, take, sum};
ghost use Rattle.copies.specs.Grids.{faultless, Placed};
ghost use Rattle.copies.specs.Lists.{counts, events_in};

use crate::parts::{Column, Slot};

// The events of a chart, instance after instance, and where those of each instance stand.
// Arrays with their lengths beside them: a run needs no heap and is copied as it is, and the kit's ArrayVec is not `Copy`.
#[derive(Clone, Copy)]
pub(crate) struct Grid {
    pub(crate) width: usize,
    pub(crate) events: usize,
    pub(crate) columns: [Column; 32],
    pub(crate) slots: [Slot; 4096],
    ghost wide: { length columns ≡ 32 },
    ghost long: { length slots ≡ 4096 },
    ghost narrow: { width ≤ 32 },
    ghost placed: { Placed width columns },
    ghost total: { events ≡ sum (take width (counts columns)) },
    ghost sound: { faultless (take width (counts columns)) (take events (events_in slots)) ≡ true },
}
