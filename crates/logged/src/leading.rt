ghost use Rattle.std.specs.Prelude.{◌≡◌, ◌++◌, IfOk, MatchOption};
ghost use Rattle.records.specs.Records.{entry_bytes};
ghost use Rattle.records.specs.Reading.{BeginsWith};
ghost use Rattle.records.specs.declared.parts.Record.TheVariants.{Entry as entry};
ghost use Rattle.logged.specs.Leading.{Leading, most_taken};

use logs::{Refusal, Verdict};
use records::{Entry, Record};
use std::alloc::{AllocError, Global};

// How many entries may have been taken of a log of this size, by the answer to it.
pub(crate) fn most_taken(size: usize, said: &Result<Verdict, Refusal>) -> usize
    ensures { result ≡ most_taken size said.now }
{
    match said {
        Err(Refusal::Record(index, _)) => index.saturating_sub(1),
        _ => size,
    }
}

// The entry that some bytes begin with, and what is left behind it.
fn first_entry(bytes: &[u8]) -> Option<(Entry, &[u8])>
    ensures { MatchOption result ((x : Entry) → BeginsWith bytes.now (entry x) → ⊥) (λ first. bytes.now ≡ entry_bytes first.0 ++ first.1.now) }
{
    let Ok((record, length)) = Record::read(bytes) else {
        return None;
    };
    match record {
        Record::Entry(entry) => Some((entry, &bytes[length..])),
        _ => None,
    }
}

// The instances of the first entries that some bytes begin with, at most so many.
pub(crate) fn leading(heap: Global, bytes: &[u8], most: usize) -> Result<Vec<u8>, AllocError>
    ensures { IfOk result (λ instances. Leading most bytes.now instances.items) }
{
    let mut instances = Vec::new(heap);
    let mut rest = bytes;
    for _ in 0..most {
        let Some((entry, behind)) = first_entry(rest) else {
            return Ok(instances);
        };
        instances.push(entry.instance)?;
        rest = behind;
    }
    Ok(instances)
}
