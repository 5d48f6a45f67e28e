ghost use Rattle.std.specs.Prelude.{◌≡◌, ◌≤◌, List, length};
ghost use Rattle.words.specs.Sentences.{Placed};
ghost use Rattle.words.specs.Reading.{placed};
ghost use Rattle.texts.specs.Numbering.{added};
ghost use Rattle.texts.specs.Noting.{Lists, NotesName};

use crate::rows::Name;
use names::{Names, Refusal};
use words::{Cause, Fault, Word};

// A table has no row for what is to be written.
pub(crate) const SHORT_TABLE: Fault = Fault {
    cause: Cause::ShortTable,
    byte: 0,
};

// Notes a name with the next number, and writes it into that row; a name that was noted before stays as it is.
pub(crate) fn note_name<'t>(
    names: &mut Names<'t>,
    rows: &mut [Name],
    word: Word<'t>,
) -> Result<(), Fault>
    ensures notes { (ns : List Placed) → length (added ns (placed word.entry)) ≤ 4096 → Lists names.old rows.old ns → NotesName ns (placed word.entry) (length rows.old) result names.new rows.new }
    ensures room { length rows.new ≡ length rows.old }
{
    let number = names.len();
    match names.note(word.bytes, number as u16) {
        Ok(()) => {}
        Err(Refusal::Repeated) => return Ok(()),
        Err(Refusal::Full) => return Err(SHORT_TABLE),
    }
    if number >= rows.len() {
        return Err(SHORT_TABLE);
    }
    rows[number] = Name::of(word);
    Ok(())
}
