ghost use Rattle.std.specs.Prelude.{◌≡◌, ◌++◌, OnOk};
ghost use Rattle.charts.specs.Lists.{column};

use charts::{Chart, Event};
use std::alloc::AllocError;

// Adds the events of instance i.
pub(crate) fn push_events<C: Chart>(
    events: &mut Vec<Event>,
    chart: &C,
    i: usize,
) -> Result<(), AllocError>
    ensures { OnOk result (events.new.items ≡ events.old.items ++ column (C.lists chart.now) i) }
{
    for k in 0..chart.count(i) {
        events.push(chart.event(i, k))?;
    }
    Ok(())
}
