ghost use Rattle.std.specs.Prelude.{◌≡◌, ℕ, List, IsTrue, ◌↔◌};
ghost use Rattle.runs.specs.Runs.{fault_of, lists_of, medium_of, KeepsChart, StandsAfter};
ghost use Rattle.runs.specs.Tells.{RefusalKeeps};
ghost use Rattle.logs.specs.Entries.{cause_of, TakeAnswers};
ghost use Rattle.logs.specs.Heads.{head_of};
ghost use Rattle.logs.specs.Ends.{VerdictIs};

use crate::parts::{Cause, Verdict};
use charts::Event;
use media::Medium;
use records::{Entry, Head};
use runs::{Refusal, Run};

// Whether the head is of a chart of this size.
pub(crate) fn fits<M: Medium>(run: &Run<M>, head: Head) -> bool
    ensures { IsTrue result ↔ (head ≡ head_of (lists_of run.now)) }
{
    usize::from(head.width) == run.width() && usize::from(head.events) == run.events()
}

// Whether the entry names the event by its kind and number.
fn names(entry: Entry, event: Event) -> bool
    ensures { IsTrue result ↔ (event.kind ≡ entry.kind) × (event.number ≡ entry.number) }
{
    event.kind == entry.kind && event.number == entry.number
}

// Why an entry is refused whose event is not stepped.
fn cause_of(refusal: Refusal) -> Cause
    ensures { result ≡ cause_of refusal }
{
    match refusal {
        Refusal::MustWait(j) => Cause::MustWait(j),
        _ => Cause::NotNext,
    }
}

// Runs the event that the entry names.
pub(crate) fn take<M: Medium>(run: &mut Run<M>, entry: Entry) -> Result<(), Cause>
    requires { fault_of run.old ≡ None }
    ensures takes { (h : List ℕ) → StandsAfter run.old h → TakeAnswers (M.carries (medium_of run.old)) (lists_of run.old) h entry result (StandsAfter run.new) }
    ensures keeps { KeepsChart run.old run.new }
    ensures refused { RefusalKeeps result run.old run.new }
{
    let i = usize::from(entry.instance);
    match run.next(i) {
        Some(event) if names(entry, event) => {}
        _ => return Err(Cause::NotNext),
    }
    match run.step(i) {
        Ok(_) => Ok(()),
        Err(refusal) => Err(cause_of(refusal)),
    }
}

// What the log is, if it ends here.
pub(crate) fn judge<M: Medium>(run: &Run<M>) -> Verdict
    ensures { (h : List ℕ) → StandsAfter run.now h → VerdictIs (lists_of run.now) h result }
{
    if run.is_done() {
        Verdict::Full
    } else {
        Verdict::Part
    }
}
