ghost use Rattle.std.specs.Prelude.{◌≡◌, Ok, IfOk};
ghost use Rattle.words.specs.Sentences.{sentences};
ghost use Rattle.texts.specs.Readings.{Reads, greatest};
ghost use Rattle.texts.specs.Roomy.{held};
ghost use Rattle.judged.specs.Shown.{Shows};
ghost use Rattle.judged.specs.Told.{TellsText};
ghost use Rattle.lines.specs.Lines.{refusal_line};

use crate::adding::add_refusal;
use crate::listed::listed_lines;
use lines::Listing;
use std::alloc::{AllocError, Global};
use texts::{Reading, TextTables};
use words::Fault;

// The lines of a text that was read into tables.
fn reading_lines(heap: Global, reading: Reading, tables: &TextTables) -> Result<Vec<u8>, AllocError>
    requires { Reads (sentences reading.text.now) greatest (Ok reading) (held tables.now) }
    ensures { IfOk result (λ lines. Shows reading.entry.text.now lines.items) }
{
    let Some(listing) = Listing::of(
        reading,
        &tables.lengths,
        &tables.events,
        &tables.instances,
        &tables.messages,
        &tables.actions,
    ) else {
        unreachable!();
    };
    listed_lines(heap, &listing)
}

// The line of a text that is refused.
pub fn fault_lines(heap: Global, fault: Fault) -> Result<Vec<u8>, AllocError>
    ensures { IfOk result (λ lines. lines.items ≡ refusal_line fault) }
{
    let mut lines = Vec::new(heap);
    add_refusal(&mut lines, fault)?;
    Ok(lines)
}

// The lines of a text by its tables.
fn shown_lines(heap: Global, text: &[u8]) -> Result<Vec<u8>, AllocError>
    ensures { IfOk result (λ lines. Shows text.now lines.items) }
{
    match TextTables::read(text) {
        Ok((reading, tables)) => reading_lines(heap, reading, &tables),
        Err(fault) => fault_lines(heap, fault),
    }
}

// Reads a chart text, judges a new run of its chart under the free medium, and makes the lines that tell of it: the chart's name and size, the events in an order in which they may run, and the verdict; or the fault for which the text is refused.
pub fn judged_lines(heap: Global, text: &[u8]) -> Result<Vec<u8>, AllocError>
    ensures shows { IfOk result (λ lines. Shows text.now lines.items) }
    ensures tells { IfOk result (λ lines. TellsText text.now lines.items) }
{
    shown_lines(heap, text)
}
