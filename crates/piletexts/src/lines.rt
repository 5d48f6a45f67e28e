ghost use Rattle.std.specs.Prelude.{◌≡◌, ◌+◌, ◌^◌, ◌<◌, [], ◌∷◌, length, MatchOption, Ok, Err};
ghost use Rattle.std.specs.Iterator.{item_count};
ghost use Rattle.piletexts.specs.Blocks.{text_until, up_to};
ghost use Rattle.piletexts.specs.Lines.{lines_of};

use crate::words::same;
use tabletexts::cut;

// The lines of a text, with the number of those that were read. A line ends in a line feed, which the last may lack.
// No `impl Model`: it is `Copy`, and a copy of a view would need its inverse.
#[derive(Clone, Copy)]
pub struct Lines<'t> {
    rest: &'t [u8],
    number: usize,
    ghost counted: { number + length rest.now < 2 ^ 63 },
}

impl<'t> Lines<'t> {
    pub fn new(text: &'t [u8]) -> Lines<'t>
        ensures { (lines_of result.rest.now ≡ lines_of text.now) × (result.number ≡ 0) }
    {
        Lines {
            rest: text,
            number: 0,
        }
    }

    // The number of the line that was read last, counted from 1.
    pub fn number(&self) -> usize
        ensures value { result ≡ self.now.number }
        ensures bound { result < 2 ^ 63 }
    {
        self.number
    }

    // The text on the lines up to a line `.`, each with its line feed; none where no such line follows, and then all lines are read.
    pub fn take_text(&mut self) -> Option<&'t [u8]>
        ensures { MatchOption result ((text_until self.old.number (lines_of self.old.rest.now) ≡ Err (self.new.number + 1)) × (lines_of self.new.rest.now ≡ [])) (λ text. text_until self.old.number (lines_of self.old.rest.now) ≡ Ok (up_to text.now self.new.number (lines_of self.new.rest.now))) }
    {
        let text = self.rest;
        let mut length = 0;
        // No `for`: it would hold the lines.
        while let Some(line) = self.next() {
            if same(line, b".") {
                return Some(&text[..length]);
            }
            length += line.len() + 1;
        }
        None
    }
}

impl<'t> Iterator for Lines<'t> {
    type Item = &'t [u8];

    ghost next_gives = { λ s r t. MatchOption r ((lines_of s.rest.now ≡ []) × (t ≡ s)) (λ line. (lines_of s.rest.now ≡ line.now ∷ lines_of t.rest.now) × (t.number ≡ s.number + 1)) };

    ghost remaining = { item_count (λ s. lines_of s.rest.now) };

    // The next line, none where there are no more.
    fn next(&mut self) -> Option<&'t [u8]> {
        if self.rest.is_empty() {
            return None;
        }
        let (line, after) = cut(self.rest, b'\n');
        self.rest = after.unwrap_or(&[]);
        self.number += 1;
        Some(line)
    }
}
