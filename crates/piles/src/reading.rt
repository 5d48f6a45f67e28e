ghost use Rattle.std.specs.Prelude.{[]};
ghost use Rattle.piletexts.specs.Lines.{lines_of};
ghost use Rattle.piles.specs.Applied.{standing};
ghost use Rattle.piles.specs.Piled.{Tells};

use crate::pile::Pile;
use piletexts::{Lines, read_command};
use std::alloc::Global;
use tabletexts::Unread;

// The stack that the commands on the lines of a text make, or the number of its first line that cannot be read.
pub fn read_pile(heap: Global, text: &[u8]) -> Result<Pile, Unread>
    ensures { Tells (λ p. p) (standing [] 0 (lines_of text.now)) result }
{
    let mut pile = Pile::new(heap);
    let mut lines = Lines::new(text);
    // No `for`: it would hold the lines, and a command reads on from them.
    while let Some(line) = lines.next() {
        if !line.is_empty() {
            let Some(command) = read_command(line) else {
                return Err(Unread::Line(lines.number()));
            };
            pile.apply(heap, command, &mut lines)?;
        }
    }
    if pile.top().is_none() {
        return Err(Unread::Line(lines.number() + 1));
    }
    Ok(pile)
}
