ghost use Rattle.copies.specs.Kept.{kept};
ghost use Rattle.rules.specs.Places.{Within, Tallied};

use crate::rows::Rows;
use copies::Indexed;

// The state of a run: its copy of the chart, and a row for each instance.
// It has no `impl Model`: `judge` and `latest` copy it, and a copy of a view would need its inverse.
#[derive(Clone, Copy)]
pub struct Board {
    pub(crate) copy: Indexed,
    pub(crate) rows: Rows,
    ghost within: { Within (kept copy) rows.table },
    ghost tallied: { Tallied (kept copy) rows.table },
}
