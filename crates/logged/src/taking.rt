ghost use Rattle.std.specs.Prelude.{◌≡◌, ◌++◌, List, IfOk, MatchOption};
ghost use Rattle.charts.specs.declared.parts.Event.{Event};
ghost use Rattle.charts.specs.Sound.{Sound};
ghost use Rattle.media.specs.Media.{free};
ghost use Rattle.records.specs.declared.parts.Head.{Head};
ghost use Rattle.records.specs.declared.parts.Record.TheVariants.{Head as head};
ghost use Rattle.records.specs.Records.{head_bytes};
ghost use Rattle.records.specs.Reading.{BeginsWith};
ghost use Rattle.logs.specs.Logs.{LogAnswered};
ghost use Rattle.logged.specs.Taken.{TakenIn};

use crate::leading::{leading, most_taken};
use logs::{Refusal, Verdict};
use records::Record;
use std::alloc::{AllocError, Global};

// What is left behind the head that a log begins with.
fn behind_head(log: &[u8]) -> Option<&[u8]>
    ensures { MatchOption result ((x : Head) → BeginsWith log.now (head x) → ⊥) (λ rest. (x : Head) × (log.now ≡ head_bytes x ++ rest.now)) }
{
    let Ok((record, length)) = Record::read(log) else {
        return None;
    };
    match record {
        Record::Head(_) => Some(&log[length..]),
        _ => None,
    }
}

// The instances of the entries of a log that were taken, each in its turn, by the answer to the log.
pub(crate) fn taken(
    heap: Global,
    log: &[u8],
    said: &Result<Verdict, Refusal>,
) -> Result<Vec<u8>, AllocError>
    ensures { (L : List (List Event)) → Sound L → LogAnswered free L log.now said.now → IfOk result (λ instances. TakenIn L log.now instances.items) }
{
    let Some(rest) = behind_head(log) else {
        return Ok(Vec::new(heap));
    };
    leading(heap, rest, most_taken(log.len(), said))
}
