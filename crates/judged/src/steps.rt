ghost use Rattle.std.specs.Prelude.{◌≡◌, ◌++◌, [], take, IfOk};
ghost use Rattle.judged.specs.Shown.{step_lines, order_lines};

use crate::adding::add_event;
use lines::Listing;
use runs::Verdict;
use std::alloc::AllocError;

// The lines of an order's events, after the lines so far.
pub fn add_steps(lines: &mut Vec<u8>, listing: &Listing, order: &[u8]) -> Result<(), AllocError>
    ensures { IfOk result (λ _. lines.new.items ≡ lines.old.items ++ step_lines listing.now [] order.now) }
{
    // how often each instance was listed
    let mut positions = [0usize; 256];
    for (at, instance) in order.iter().enumerate() {
        let instance = usize::from(*instance);
        let position = positions[instance];
        add_event(lines, listing, at + 1, instance, position)?;
        positions[instance] = position + 1;
    }
    Ok(())
}

// The first bytes, so many; all where there are fewer.
fn first(bytes: &[u8], count: usize) -> &[u8]
    ensures { result.now ≡ take count bytes.now }
{
    &bytes[..count.min(bytes.len())]
}

// The lines of the order that a verdict wrote, none where it wrote a ring.
pub(crate) fn add_order(
    lines: &mut Vec<u8>,
    listing: &Listing,
    verdict: Verdict,
    written: &[u8],
) -> Result<(), AllocError>
    ensures { IfOk result (λ _. lines.new.items ≡ lines.old.items ++ order_lines listing.now verdict written.now) }
{
    match verdict {
        Verdict::Runs(length) => add_steps(lines, listing, first(written, length)),
        Verdict::Stuck(_) => Ok(()),
    }
}
