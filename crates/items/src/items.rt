ghost use Rattle.std.specs.Prelude.{◌≡◌, true, false, IfOk};
ghost use Rattle.words.specs.Reading.{left};
ghost use Rattle.items.specs.Items.{items_from};
ghost use Rattle.items.specs.Parsing.{ItemStandsIn, StepRead, EndRead};

use crate::parser::Parser;
use crate::parts::{Item, Stage};
use sentences::{close, read_event, read_name, read_word};
use words::{Cause, Fault, Piece, Reader};

// That nothing stands after the end.
fn read_end<'t>(reader: &mut Reader<'t>) -> Result<(), Fault>
    ensures reads { EndRead (left reader.old) result }
    ensures keeps { reader.new.text ≡ reader.old.text }
{
    match reader.next_piece()? {
        Piece::End(_) => Ok(()),
        Piece::Word(word) => Err(Fault::at(Cause::AfterEnd, word.start)),
        Piece::Semicolon(byte) => Err(Fault::at(Cause::AfterEnd, byte)),
    }
}

// The next item between instances, and where the parser then stands.
pub(crate) fn read_outside<'t>(reader: &mut Reader<'t>) -> Result<(Item<'t>, Stage), Fault>
    ensures reads { StepRead (items_from false (left reader.old)) result (left reader.new) }
    ensures stands { IfOk result (λ r. ItemStandsIn reader.old.text.now r.0) }
    ensures keeps { reader.new.text ≡ reader.old.text }
{
    let keyword = read_word(reader)?;
    if keyword.is(b"instance") {
        let name = read_name(reader)?;
        return Ok((Item::Instance(name), Stage::Heading));
    }
    if keyword.is(b"endmsc") {
        close(reader)?;
        read_end(reader)?;
        return Ok((Item::End, Stage::Done));
    }
    Err(Fault::at(Cause::WrongWord, keyword.start))
}

// The next item of an instance, and where the parser then stands.
pub(crate) fn read_inside<'t>(reader: &mut Reader<'t>) -> Result<(Item<'t>, Stage), Fault>
    ensures reads { StepRead (items_from true (left reader.old)) result (left reader.new) }
    ensures stands { IfOk result (λ r. ItemStandsIn reader.old.text.now r.0) }
    ensures keeps { reader.new.text ≡ reader.old.text }
{
    let keyword = read_word(reader)?;
    if keyword.is(b"endinstance") {
        close(reader)?;
        return Ok((Item::InstanceEnd, Stage::Outside));
    }
    let event = read_event(reader, keyword)?;
    Ok((Item::Event(event), Stage::Inside))
}
