ghost use Rattle.std.specs.Prelude.{◌≡◌, ◌++◌, IfOk, string_bytes, codes, OnOk, Some};
ghost use Rattle.std.specs.Fmt.{WritesOnOk};
ghost use Rattle.charts.specs.Lists.{column};
ghost use Rattle.listings.specs.Report.{event_lines, instance_lines, line, report_of};

use crate::lines::Row;
use charts::Chart;
use std::alloc::{AllocError, Global};
use std::fmt;

// A chart, shown by its size, a line for each event, and `sound`; or by its fault.
#[derive(Drop)]
struct Listing<'c, C>(&'c C);

// Writes a line for each event of instance i.
#[tactic(auto, using(crate::proofs::Turns::events_more))]
fn write_events<C: Chart, W: fmt::Write>(
    f: &mut fmt::Formatter<W>,
    chart: &C,
    instance: usize,
) -> fmt::Result
    ensures { WritesOnOk W.write_str_gives f.old result (event_lines instance 0 (column (C.lists chart.now) instance)) f.new }
{
    for index in 0..chart.count(instance) {
        let event = chart.event(instance, index);
        let row = Row {
            instance,
            index,
            event,
        };
        writeln!(f, "{row}")?;
    }
    Ok(())
}

impl<'c, C: Chart> fmt::Display for Listing<'c, C> {
    ghost output = { λ r. Some (report_of (C.trouble r.0.now) (C.lists r.0.now)) };

    #[tactic(auto, using(crate::proofs::Turns::instances_more))]
    fn fmt<W: fmt::Write>(&self, f: &mut fmt::Formatter<W>) -> fmt::Result {
        let chart = self.0;
        match chart.summary() {
            Ok(size) => {
                writeln!(f, "{size}")?;
                for i in 0..chart.width() {
                    write_events(f, chart, i)?;
                }
                writeln!(f, "sound")
            }
            Err(fault) => writeln!(f, "{fault}"),
        }
    }
}

// The whole report on a chart: its size, a line for each event, and `sound`; or its fault.
pub fn report<C: Chart>(heap: Global, chart: &C) -> Result<String, AllocError>
    ensures { IfOk result (λ s. string_bytes s ≡ report_of (C.trouble chart.now) (C.lists chart.now)) }
{
    Listing(chart).to_string(heap)
}
