ghost use Rattle.copies.specs.Grids.{Mated, Ranked};

use crate::grid::Grid;
use charts::Fault;

// A run's own copy of a chart: its events, with what is fixed of each, and its fault.
#[derive(Clone, Copy)]
pub struct Indexed {
    pub(crate) grid: Grid,
    pub(crate) fault: Option<Fault>,
    ghost mated: { Mated grid.width grid.columns grid.slots },
    ghost ranked: { Ranked grid.width grid.columns grid.slots },
}
