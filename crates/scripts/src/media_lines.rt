ghost use Rattle.std.specs.Prelude.{◌≡◌};
ghost use Rattle.std.specs.Option.{option_map};
ghost use Rattle.tabletexts.specs.Pieces.{pieces_after};
ghost use Rattle.scripts.specs.MediumLines.{medium_by, narrow_in};

use crate::operands::{alone, read_one_byte};
use crate::parts::MediumCommand;

// A medium made narrower, to the room in the only operand.
fn read_narrow(operands: Option<&[u8]>) -> Option<MediumCommand>
    ensures { result ≡ narrow_in (pieces_after 32 operands.entry) }
{
    read_one_byte(operands).map(MediumCommand::Narrow)
}

// The command to the medium of a word with these operands.
pub(crate) fn read_medium(word: &[u8], operands: Option<&[u8]>) -> Option<MediumCommand>
    ensures { result ≡ medium_by word.now (pieces_after 32 operands.entry) }
{
    match word {
        b"free" => alone(MediumCommand::Free, operands),
        b"line" => alone(MediumCommand::Line, operands),
        b"narrow" => read_narrow(operands),
        _ => None,
    }
}
