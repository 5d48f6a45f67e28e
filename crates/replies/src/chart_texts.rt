ghost use Rattle.std.specs.Prelude.{◌≡◌, IfOk, string_bytes};
ghost use Rattle.words.specs.Refusals.{refusal_text};

use std::alloc::{AllocError, Global};
use words::Fault;

// The line of a chart text that is refused, without a line feed.
pub fn text_refusal_line(heap: Global, fault: Fault) -> Result<String, AllocError>
    ensures { IfOk result (λ s. string_bytes s ≡ refusal_text fault) }
{
    let number = u8::from(fault.cause);
    format!(in heap; "refused {number} at {}", fault.byte)
}
