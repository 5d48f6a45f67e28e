ghost use Rattle.std.specs.Prelude.{◌≤◌};

use messages::MessagePlaces;

// How many instances and events a chart has, and where the events of its messages stand.
#[derive(Clone, Copy)]
pub(crate) struct Linker<'p> {
    pub(crate) width: usize,
    pub(crate) events: usize,
    pub(crate) places: &'p MessagePlaces,
    ghost narrow: { width ≤ 32 },
    ghost few: { events ≤ 4096 },
}
