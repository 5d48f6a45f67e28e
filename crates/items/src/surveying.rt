ghost use Rattle.std.specs.Prelude.{◌≡◌, false, IfOk};
ghost use Rattle.words.specs.Sentences.{sentences};
ghost use Rattle.words.specs.Reading.{others, placed, StandsIn};
ghost use Rattle.items.specs.Items.{items_from};
ghost use Rattle.items.specs.Parsing.{items_left};
ghost use Rattle.items.specs.Surveys.{items_in, Counts, Surveys};

use crate::parser::Parser;
use crate::size::Size;
use crate::tally::Tally;
use charts::Rule;
use words::{Cause, Fault};

// How many instances and events the text has, or its first fault.
fn count_items<'t>(text: &'t [u8], parser: Parser<'t>) -> Result<(usize, usize), Fault>
    requires begun { items_left parser ≡ items_from false (others (sentences text.now)) }
    requires titled { items_in (sentences text.now) ≡ (items_left parser).items }
    ensures { Counts (items_left parser.entry) result }
{
    let mut left = parser;
    let mut tally = Tally::new();
    loop {
        let item = left.next()?;
        if item.is_end() {
            return Ok((tally.instances, tally.events));
        }
        tally.take(text, item)?;
    }
}

// A chart text's name and size, within the limits of a chart, or its first fault.
pub fn survey<'t>(text: &'t [u8]) -> Result<Size<'t>, Fault>
    ensures surveys { Surveys (sentences text.now) result }
    ensures stands { IfOk result (λ size. StandsIn text.now (placed size.title)) }
{
    let (title, parser) = Parser::begin(text)?;
    let (instances, events) = count_items(text, parser)?;
    if instances > 32 {
        return Err(Fault::at(Cause::Chart(Rule::Lengths), 0));
    }
    if events > 4096 {
        return Err(Fault::at(Cause::Chart(Rule::Events), 0));
    }
    Ok(Size {
        title,
        instances,
        events,
    })
}
