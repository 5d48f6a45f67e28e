ghost use Rattle.std.specs.Prelude.{◌≡◌, Some, get_or};
ghost use Rattle.runs.specs.Refusals.{told};
ghost use Rattle.replies.specs.RefusalLines.{refusal_line};

use runs::Refusal;
use std::fmt;

// The number of a refusal; of a spoiled chart, its fault's.
fn refusal_number(refusal: Refusal) -> u8
    ensures { result ≡ get_or (told refusal) 0 0 }
{
    match refusal {
        Refusal::Spoiled(fault) => fault.number,
        Refusal::NoInstance => 41,
        Refusal::NothingLeft => 42,
        Refusal::MustWait(_) => 43,
        Refusal::ShortBuffer => 44,
        Refusal::NoEvent => 45,
        Refusal::HasRun => 46,
        Refusal::NoFullOrder => 47,
    }
}

// A refusal, shown by what it tells.
#[derive(Drop)]
pub(crate) struct Told(pub Refusal);

impl fmt::Display for Told {
    ghost output = { λ r. Some (refusal_line r.0) };

    fn fmt<W: fmt::Write>(&self, f: &mut fmt::Formatter<W>) -> fmt::Result {
        let number = refusal_number(self.0);
        match self.0 {
            Refusal::Spoiled(fault) => write!(f, "{fault}"),
            Refusal::MustWait(awaited) => write!(f, "refused {number} {awaited}"),
            _ => write!(f, "refused {number}"),
        }
    }
}
