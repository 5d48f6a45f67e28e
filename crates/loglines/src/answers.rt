ghost use Rattle.std.specs.Prelude.{◌≡◌, IfOk, Some, string_bytes};
ghost use Rattle.loglines.specs.LogLines.{log_line};

use logs::{Cause, Refusal, Verdict};
use std::alloc::{AllocError, Global};
use std::fmt;

// What a log is, or why it is refused, shown by its line.
#[derive(Drop)]
pub struct Said(pub Result<Verdict, Refusal>);

impl fmt::Display for Said {
    ghost output = { λ said. Some (log_line said.0) };

    fn fmt<W: fmt::Write>(&self, f: &mut fmt::Formatter<W>) -> fmt::Result {
        match self.0 {
            Ok(Verdict::Full) => f.write_str("full"),
            Ok(Verdict::Part) => f.write_str("part"),
            Err(Refusal::Spoiled(fault)) => write!(f, "{fault}"),
            Err(Refusal::Record(index, cause)) => {
                let number = u8::from(cause);
                match cause {
                    Cause::MustWait(awaited) => write!(f, "refused {number} {index} {awaited}"),
                    _ => write!(f, "refused {number} {index}"),
                }
            }
        }
    }
}

// The line of a verdict or a refusal, without a line feed: of a refusal its number and the record, and at 43 the instance waited for.
pub fn log_line(heap: Global, said: Result<Verdict, Refusal>) -> Result<String, AllocError>
    ensures { IfOk result (λ s. string_bytes s ≡ log_line said) }
{
    Said(said).to_string(heap)
}
