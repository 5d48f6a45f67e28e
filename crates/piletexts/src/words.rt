ghost use Rattle.std.specs.Prelude.{◌≡◌};
ghost use Rattle.std.specs.Str.{bytes_eq};
ghost use Rattle.tabletexts.specs.Pieces.{pieces, pieces_after};
ghost use Rattle.piletexts.specs.Commands.{command_on, names_in, only_word, poll_in, recast_by};

use crate::parts::Command;
use tabletexts::{cut, read_byte};

// The names of so many instances as there are fields, zeros for the others.
fn read_names(fields: &[u8]) -> Option<[u8; 32]>
    ensures { result ≡ names_in 32 (pieces 32 fields.now) }
{
    let mut names = [0; 32];
    for (given, field) in fields.split(|b| *b == b' ').enumerate() {
        if given >= 32 {
            return None;
        }
        names[given] = read_byte(field)?;
    }
    Some(names)
}

// The poll of two operands.
fn read_poll(operands: Option<&[u8]>) -> Option<Command>
    ensures { result ≡ poll_in (pieces_after 32 operands.entry) }
{
    let (keypads, rest) = cut(operands?, b' ');
    let (rounds, rest) = cut(rest?, b' ');
    if rest.is_some() {
        return None;
    }
    Some(Command::Poll(read_byte(keypads)?, read_byte(rounds)?))
}

// Whether two texts have the same bytes: `==` by a name that users of this crate may call.
pub fn same(a: &[u8], b: &[u8]) -> bool
    ensures { result ≡ bytes_eq a.now b.now }
{
    a == b
}

// The command, where no operands follow its word.
fn alone(command: Command, operands: Option<&[u8]>) -> Option<Command>
    ensures { result ≡ only_word command (pieces_after 32 operands.entry) }
{
    match operands {
        None => Some(command),
        Some(_) => None,
    }
}

// The recast by the names in the operands.
fn read_recast(operands: Option<&[u8]>) -> Option<Command>
    ensures { result ≡ recast_by (names_in 32 (pieces_after 32 operands.entry)) }
{
    let names = match operands {
        None => [0; 32],
        Some(fields) => read_names(fields)?,
    };
    Some(Command::Recast(names))
}

// The command on a line, none where the line writes none.
pub fn read_command(line: &[u8]) -> Option<Command>
    ensures { result ≡ command_on line.now }
{
    let (word, operands) = cut(line, b' ');
    match word {
        b"table" => alone(Command::Table, operands),
        b"after" => alone(Command::After, operands),
        b"beside" => alone(Command::Beside, operands),
        b"poll" => read_poll(operands),
        b"recast" => read_recast(operands),
        _ => None,
    }
}
