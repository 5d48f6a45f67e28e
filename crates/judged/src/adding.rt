ghost use Rattle.std.specs.Prelude.{◌≡◌, ◌++◌, IfOk};
ghost use Rattle.lines.specs.Lines.{heading_line, event_line, verdict_line, refusal_line};

use lines::{LINE_ROOM, Listing, refusal_line};
use runs::Verdict;
use std::alloc::AllocError;
use words::Fault;

// The line of a chart's name and size, after the lines so far.
pub(crate) fn add_heading(lines: &mut Vec<u8>, listing: &Listing) -> Result<(), AllocError>
    ensures { IfOk result (λ _. lines.new.items ≡ lines.old.items ++ heading_line listing.now) }
{
    let mut line = [0; LINE_ROOM];
    let Ok(length) = listing.heading_line(&mut line) else {
        unreachable!();
    };
    lines.extend_from_slice(&line[..length])
}

// The line of the event at an index of an instance.
pub(crate) fn add_event(
    lines: &mut Vec<u8>,
    listing: &Listing,
    place: usize,
    instance: usize,
    index: usize,
) -> Result<(), AllocError>
    ensures { IfOk result (λ _. lines.new.items ≡ lines.old.items ++ event_line listing.now place instance index) }
{
    let mut line = [0; LINE_ROOM];
    let Ok(length) = listing.event_line(place, instance, index, &mut line) else {
        unreachable!();
    };
    lines.extend_from_slice(&line[..length])
}

// The line of a verdict.
pub(crate) fn add_verdict(
    lines: &mut Vec<u8>,
    listing: &Listing,
    verdict: Verdict,
    ring: &[u8],
) -> Result<(), AllocError>
    ensures { IfOk result (λ _. lines.new.items ≡ lines.old.items ++ verdict_line listing.now verdict ring.now) }
{
    let mut line = [0; LINE_ROOM];
    let Ok(length) = listing.verdict_line(verdict, ring, &mut line) else {
        unreachable!();
    };
    lines.extend_from_slice(&line[..length])
}

// The line of a fault.
pub(crate) fn add_refusal(lines: &mut Vec<u8>, fault: Fault) -> Result<(), AllocError>
    ensures { IfOk result (λ _. lines.new.items ≡ lines.old.items ++ refusal_line fault) }
{
    let mut line = [0; LINE_ROOM];
    let Ok(length) = refusal_line(fault, &mut line) else {
        unreachable!();
    };
    lines.extend_from_slice(&line[..length])
}
