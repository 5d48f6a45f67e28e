ghost use Rattle.std.specs.Prelude.{◌≡◌, length};
ghost use Rattle.rules.specs.Places.{Even};

use crate::row::Row;

// A row for each instance that a chart can have. Its calls take instances by number, each with its own bound: they are numbers in charts, orders and answers,
// and a bounded number's type would be made and opened at each call. An array, since the run's state is `Copy` and needs no heap; the kit's ArrayVec is not `Copy`.
#[derive(Clone, Copy)]
pub struct Rows {
    pub(crate) table: [Row; 32],
    ghost sized: { length table ≡ 32 },
    ghost even: { Even table },
}
