ghost use Rattle.std.specs.Prelude.{◌≡◌, None, Some, MatchResult};
ghost use Rattle.words.specs.Sentences.{sentences};
ghost use Rattle.items.specs.Surveys.{items_in};
ghost use Rattle.checks.specs.Checked.{checked};
ghost use Rattle.texts.specs.Whole.{Whole};
ghost use Rattle.texts.specs.Readings.{broken};
ghost use Rattle.texts.specs.Checking.{fault_in};

use crate::starts::start_of;
use charts::{Chart, Event, Rule};
use tables::Table;
use words::{Cause, Fault};

// The rule that events break which are well formed: a message has two events of a kind, or one has no match.
fn broken_rule(number: u8) -> Rule
    ensures { result ≡ broken number }
{
    match number {
        17 => Rule::Repeated,
        _ => Rule::Unmatched,
    }
}

// Whether the chart over the tables has no fault; a fault stands where its event starts in the text.
pub(crate) fn check_chart(text: &[u8], lengths: &[u16], events: &[Event]) -> Result<(), Fault>
    requires { Whole (sentences text.now) }
    ensures { MatchResult result (λ _. checked lengths.now events.now ≡ None) (λ f. fault_in (items_in (sentences text.now)) (checked lengths.now events.now) ≡ Some f) }
{
    let Some(fault) = Table::new(lengths, events).fault() else {
        return Ok(());
    };
    let start = start_of(text, usize::from(fault.instance), usize::from(fault.event));
    Err(Fault::at(Cause::Chart(broken_rule(fault.number)), start))
}
