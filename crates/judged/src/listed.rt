ghost use Rattle.std.specs.Prelude.{◌≡◌, [], None, length, IfOk};
ghost use Rattle.media.specs.Media.{free};
ghost use Rattle.checks.specs.Checked.{checked};
ghost use Rattle.runs.specs.Verdicts.{Judges};
ghost use Rattle.judged.specs.Shown.{chart_in, ShowsVerdict};

use crate::adding::{add_heading, add_verdict};
use crate::steps::add_order;
use charts::MOST_EVENTS;
use lines::Listing;
use media::Free;
use runs::{Run, Verdict};
use std::alloc::{AllocError, Global};

// Judges a new run of a listing's chart under the free medium.
fn judge_listing(listing: &Listing, order: &mut [u8]) -> Verdict
    requires faultless { checked listing.now.table.lengths.now listing.now.table.events.now ≡ None }
    requires room { length order.old ≡ 4096 }
    ensures { Judges free (chart_in listing.now) [] order.old result order.new }
{
    let Ok(verdict) = Run::new(&listing.chart(), Free).judge(order) else {
        unreachable!();
    };
    verdict
}

// The lines of a listing: its heading, the events of its order where it runs to its end, and the verdict.
#[tactic(auto, using(crate::proofs::Telling::shown))]
pub(crate) fn listed_lines(heap: Global, listing: &Listing) -> Result<Vec<u8>, AllocError>
    requires { checked listing.now.table.lengths.now listing.now.table.events.now ≡ None }
    ensures { IfOk result (λ lines. ShowsVerdict listing.now lines.items) }
{
    let mut lines = Vec::new(heap);
    let mut order = [0; MOST_EVENTS];
    let verdict = judge_listing(listing, &mut order);
    add_heading(&mut lines, listing)?;
    add_order(&mut lines, listing, verdict, &order)?;
    add_verdict(&mut lines, listing, verdict, &order)?;
    Ok(lines)
}
