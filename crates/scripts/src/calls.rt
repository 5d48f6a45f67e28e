ghost use Rattle.std.specs.Prelude.{◌≡◌};
ghost use Rattle.tabletexts.specs.Pieces.{pieces_after};
ghost use Rattle.scripts.specs.Calls.{call_by, drive_in, judge_in, latest_in, step_in};

use crate::operands::{alone, read_one, read_one_byte, read_two};
use runs::Call;

// A step of the instance in the only operand.
fn read_step(operands: Option<&[u8]>) -> Option<(Call, usize)>
    ensures { result ≡ step_in (pieces_after 32 operands.entry) }
{
    let i = read_one_byte(operands)?;
    Some((Call::Step(usize::from(i)), 0))
}

// A drive of so many steps, and its room.
fn read_drive(operands: Option<&[u8]>) -> Option<(Call, usize)>
    ensures { result ≡ drive_in (pieces_after 32 operands.entry) }
{
    let (n, room) = read_two(operands, u16::MAX, u16::MAX)?;
    Some((Call::Drive(usize::from(n)), usize::from(room)))
}

// A judge with its room.
fn read_judge(operands: Option<&[u8]>) -> Option<(Call, usize)>
    ensures { result ≡ judge_in (pieces_after 32 operands.entry) }
{
    let room = read_one(operands, u16::MAX)?;
    Some((Call::Judge, usize::from(room)))
}

// A latest of an instance's event.
fn read_latest(operands: Option<&[u8]>) -> Option<(Call, usize)>
    ensures { result ≡ latest_in (pieces_after 32 operands.entry) }
{
    let (i, k) = read_two(operands, u16::from(u8::MAX), u16::MAX)?;
    Some((Call::Latest(usize::from(i), usize::from(k)), 0))
}

// The call of a word with these operands, and the length of the buffer that it is handed.
pub(crate) fn read_call(word: &[u8], operands: Option<&[u8]>) -> Option<(Call, usize)>
    ensures { result ≡ call_by word.now (pieces_after 32 operands.entry) }
{
    match word {
        b"step" => read_step(operands),
        b"drive" => read_drive(operands),
        b"restart" => alone((Call::Restart, 0), operands),
        b"judge" => read_judge(operands),
        b"latest" => read_latest(operands),
        _ => None,
    }
}
