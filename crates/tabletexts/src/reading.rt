ghost use Rattle.std.specs.Prelude.{◌≡◌, ◌<◌, ◌≤◌, [], ◌∷◌, length, IfSome, MatchOption, Ok, vec_items};
ghost use Rattle.std.specs.Iterator.{at_most};
ghost use Rattle.tabletexts.specs.Outcome.{Answers};
ghost use Rattle.tabletexts.specs.Pieces.{pieces, pieces_after};
ghost use Rattle.tabletexts.specs.Table.{FirstLine, Table, event_on, events_from, held, lengths_on, lines, number_in, reading};
ghost use Rattle.tabletexts.specs.Written.{FitsTable, written};

use crate::parts::{TableText, Unread};
use charts::Event;
use std::alloc::Global;

// The text before the first separator, and what follows it.
pub fn cut(text: &[u8], separator: u8) -> (&[u8], Option<&[u8]>)
    ensures value { pieces separator text.now ≡ result.0.now ∷ pieces_after separator result.1 }
    ensures less { IfSome result.1 (λ rest. length rest.now < length text.now) }
{
    match text.iter().position(|b| *b == separator) {
        Some(i) => (&text[..i], Some(&text[i + 1..])),
        None => (text, None),
    }
}

// The number that the field writes in decimal, where it is at most `most`.
// Digit by digit: a field is bytes and no `str`, which `parse` wants, and `parse` would take a sign.
pub fn read_number(field: &[u8], most: u16) -> Option<u16>
    ensures value { result ≡ number_in most field.now }
    ensures bound { IfSome result (λ n. n ≤ most) }
{
    if field.is_empty() {
        return None;
    }
    let mut value = 0;
    for b in field {
        if !b.is_ascii_digit() {
            return None;
        }
        value = value * 10 + u32::from(*b - b'0');
        if value > u32::from(most) {
            return None;
        }
    }
    u16::try_from(value).ok()
}

// The same for a number of 8 bits.
pub fn read_byte(field: &[u8]) -> Option<u8>
    ensures { result ≡ number_in 255 field.now }
{
    u8::try_from(read_number(field, u16::from(u8::MAX))?).ok()
}

// The lengths on the first line.
pub fn read_lengths(heap: Global, line: &[u8]) -> Result<Vec<u16>, Unread>
    ensures { Answers vec_items (lengths_on line.now) result }
{
    let mut lengths = Vec::new(heap);
    if line.is_empty() {
        return Ok(lengths);
    }
    for field in line.split(|b| *b == b' ') {
        let Some(length) = read_number(field, u16::MAX) else {
            return Err(Unread::Line(1));
        };
        lengths.push(length)?;
    }
    Ok(lengths)
}

// The event on a line.
pub fn read_event(line: &[u8]) -> Option<Event>
    ensures { result ≡ event_on line.now }
{
    let (kind, rest) = cut(line, b' ');
    let (peer, rest) = cut(rest?, b' ');
    let (number, rest) = cut(rest?, b' ');
    if rest.is_some() {
        return None;
    }
    Some(Event {
        kind: read_byte(kind)?,
        peer: read_byte(peer)?,
        number: read_number(number, u16::MAX)?,
    })
}

// The lines of a text, but for an empty one at its end. No `split`, which takes longer over empty lines.
#[derive(Drop)]
struct Lines<'t>(&'t [u8]);

impl<'t> Iterator for Lines<'t> {
    type Item = &'t [u8];

    ghost next_gives = { λ s r t. MatchOption r (s.0.now ≡ []) (λ line. FirstLine s.0.now line.now t.0.now) };

    ghost remaining = { λ s. at_most (length s.0.now) };

    fn next(&mut self) -> Option<&'t [u8]> {
        if self.0.is_empty() {
            return None;
        }
        let (line, rest) = cut(self.0, b'\n');
        self.0 = rest.unwrap_or(&[]);
        Some(line)
    }
}

// The events on the lines of the text, the first of which is the second of the table.
fn read_events(heap: Global, text: &[u8]) -> Result<Vec<Event>, Unread>
    ensures { Answers vec_items (events_from 2 (lines text.now)) result }
{
    let mut events = Vec::new(heap);
    for (i, line) in Lines(text).enumerate() {
        if !line.is_empty() {
            let Some(event) = read_event(line) else {
                return Err(Unread::Line(i + 2));
            };
            events.push(event)?;
        }
    }
    Ok(events)
}

// The table that the text says, or the number of its first line that cannot be read.
pub fn read(heap: Global, text: &[u8]) -> Result<TableText, Unread>
    ensures value { Answers held (reading text.now) result }
    ensures back { (t : Table) → FitsTable t → text.now ≡ written t → Answers held (Ok t) result }
{
    let (line, rest) = cut(text, b'\n');
    let lengths = read_lengths(heap, line)?;
    let events = match rest {
        Some(lines) => read_events(heap, lines)?,
        None => Vec::new(heap),
    };
    Ok(TableText { lengths, events })
}
