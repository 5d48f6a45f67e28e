ghost use Rattle.std.specs.Prelude.{◌≡◌, Ok, IfOk};
ghost use Rattle.words.specs.Sentences.{sentences};
ghost use Rattle.texts.specs.Readings.{Reads, greatest};
ghost use Rattle.texts.specs.Roomy.{held};
ghost use Rattle.lines.specs.Listings.{HoldsRows};
ghost use Rattle.logged.specs.Shown.{Shows};
ghost use Rattle.logged.specs.Told.{TellsLog};

use crate::listed::log_lines;
use judged::fault_lines;
use lines::Listing;
use std::alloc::{AllocError, Global};
use texts::{Reading, TextTables};

// The listing of a text that was read into tables.
fn listing_of<'t, 'a>(reading: Reading<'t>, tables: &'a TextTables) -> Listing<'t, 'a>
    requires { Reads (sentences reading.text.now) greatest (Ok reading) (held tables.now) }
    ensures { HoldsRows reading.entry tables.now.lengths tables.now.events tables.now.instances tables.now.messages tables.now.actions result }
{
    let Some(listing) = Listing::of(
        reading,
        &tables.lengths,
        &tables.events,
        &tables.instances,
        &tables.messages,
        &tables.actions,
    ) else {
        unreachable!();
    };
    listing
}

// The lines of a log and of a text by its tables.
fn shown_lines(heap: Global, text: &[u8], log: &[u8]) -> Result<Vec<u8>, AllocError>
    ensures { IfOk result (λ lines. Shows text.now log.now lines.items) }
{
    match TextTables::read(text) {
        Ok((reading, tables)) => {
            let listing = listing_of(reading, &tables);
            log_lines(heap, &listing, log)
        }
        Err(fault) => fault_lines(heap, fault),
    }
}

// Reads a chart text, checks a log of its chart under the free medium, and makes the lines that tell of it: the events of the entries that are taken, and what the log is; or the fault for which the text is refused.
pub fn logged_lines(heap: Global, text: &[u8], log: &[u8]) -> Result<Vec<u8>, AllocError>
    ensures shows { IfOk result (λ lines. Shows text.now log.now lines.items) }
    ensures tells { IfOk result (λ lines. TellsLog text.now log.now lines.items) }
{
    shown_lines(heap, text, log)
}
