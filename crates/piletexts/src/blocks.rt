ghost use Rattle.std.specs.Prelude.{[], vec_items};
ghost use Rattle.tabletexts.specs.Outcome.{Answers};
ghost use Rattle.tabletexts.specs.Table.{held, lengths_on};
ghost use Rattle.piletexts.specs.Blocks.{events_until, on_line, table_until, up_to};
ghost use Rattle.piletexts.specs.Lines.{lines_of};

use crate::lines::Lines;
use crate::words::same;
use charts::Event;
use std::alloc::Global;
use tabletexts::{TableText, Unread, read_event, read_lengths};

// The events on the lines up to the end of the table. A table's own text has no such end, and its lines are not shared with a pile.
fn read_events<'t>(heap: Global, lines: &mut Lines<'t>) -> Result<Vec<Event>, Unread>
    ensures { Answers (λ v. up_to v.items lines.new.number (lines_of lines.new.rest.now)) (events_until [] lines.old.number (lines_of lines.old.rest.now)) result }
{
    let mut events = Vec::new(heap);
    // No `for`: it would hold the lines, and their number is asked for inside.
    while let Some(line) = lines.next() {
        if same(line, b".") {
            return Ok(events);
        }
        if !line.is_empty() {
            let Some(event) = read_event(line) else {
                return Err(Unread::Line(lines.number()));
            };
            events.push(event)?;
        }
    }
    Err(Unread::Line(lines.number() + 1))
}

// The lengths on the line of this number.
fn lengths_on(heap: Global, line: &[u8], number: usize) -> Result<Vec<u16>, Unread>
    ensures { Answers vec_items (on_line number (lengths_on line.now)) result }
{
    match read_lengths(heap, line) {
        Ok(lengths) => Ok(lengths),
        Err(Unread::Line(_)) => Err(Unread::Line(number)),
        Err(Unread::Memory) => Err(Unread::Memory),
    }
}

// The table on the lines up to a line `.`: first the lengths, then the events.
pub fn read_table<'t>(heap: Global, lines: &mut Lines<'t>) -> Result<TableText, Unread>
    ensures { Answers (λ t. up_to (held t) lines.new.number (lines_of lines.new.rest.now)) (table_until lines.old.number (lines_of lines.old.rest.now)) result }
{
    let Some(line) = lines.next() else {
        return Err(Unread::Line(lines.number() + 1));
    };
    if same(line, b".") {
        return Ok(TableText {
            lengths: Vec::new(heap),
            events: Vec::new(heap),
        });
    }
    let lengths = lengths_on(heap, line, lines.number())?;
    let events = read_events(heap, lines)?;
    Ok(TableText { lengths, events })
}
