ghost use Rattle.plays.specs.Scripted.{Tells};
ghost use Rattle.plays.specs.Scripts.{script_of};

use crate::draft::Draft;
use crate::parts::{Script, Unplayed};
use piletexts::Lines;
use scripts::read_statement;
use std::alloc::Global;

// The script that a text writes; or its first line that cannot be read, or the fault of the first chart text in it that is refused, whichever comes first.
pub fn read_script(heap: Global, text: &[u8]) -> Result<Script, Unplayed>
    ensures { Tells script_of text.now result }
{
    let mut draft = Draft::new(heap);
    let mut lines = Lines::new(text);
    // No `for`: it would hold the lines, and a statement reads on from them.
    while let Some(line) = lines.next() {
        if !line.is_empty() {
            let Some(statement) = read_statement(line) else {
                return Err(Unplayed::Line(lines.number()));
            };
            draft.follow(heap, statement, &mut lines)?;
        }
    }
    draft.finish(lines.number() + 1)
}
