ghost use Rattle.std.specs.Prelude.{◌≡◌, ◌++◌, None, IfOk};
ghost use Rattle.checks.specs.Checked.{checked};
ghost use Rattle.listings.specs.Report.{line};
ghost use Rattle.loglines.specs.LogLines.{log_line};
ghost use Rattle.logged.specs.Shown.{ShowsLog};

use crate::taking::taken;
use judged::add_steps;
use lines::Listing;
use loglines::log_line;
use logs::{Refusal, Verdict, check_log};
use media::Free;
use std::alloc::{AllocError, Global};

// The line of what a log is, after the lines so far.
fn add_answer(
    lines: &mut Vec<u8>,
    heap: Global,
    said: Result<Verdict, Refusal>,
) -> Result<(), AllocError>
    ensures { IfOk result (λ _. lines.new.items ≡ lines.old.items ++ line (log_line said)) }
{
    lines.extend_from_slice(log_line(heap, said)?.as_bytes())?;
    lines.push(b'\n')?;
    Ok(())
}

// The lines of a log of a listing's chart: the events of the entries that are taken, and what the log is.
pub(crate) fn log_lines(heap: Global, listing: &Listing, log: &[u8]) -> Result<Vec<u8>, AllocError>
    requires { checked listing.now.table.lengths.now listing.now.table.events.now ≡ None }
    ensures { IfOk result (λ lines. ShowsLog listing.now log.now lines.items) }
{
    let (said, _) = check_log(&listing.chart(), Free, log);
    let steps = taken(heap, log, &said)?;
    let mut lines = Vec::new(heap);
    add_steps(&mut lines, listing, steps.as_slice())?;
    add_answer(&mut lines, heap, said)?;
    Ok(lines)
}
