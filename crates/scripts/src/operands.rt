ghost use Rattle.std.specs.Prelude.{◌≡◌, ◌≤◌, IfSome};
ghost use Rattle.tabletexts.specs.Pieces.{pieces_after};
ghost use Rattle.scripts.specs.Operands.{no_operand, one_number, two_numbers};

use tabletexts::{cut, read_number};

// The value, where no operands follow its word.
pub(crate) fn alone<T: Drop>(value: T, operands: Option<&[u8]>) -> Option<T>
    ensures { result ≡ no_operand value (pieces_after 32 operands.entry) }
{
    match operands {
        None => Some(value),
        Some(_) => None,
    }
}

// The number of at most `most` in the only operand.
pub(crate) fn read_one(operands: Option<&[u8]>, most: u16) -> Option<u16>
    ensures value { result ≡ one_number most (pieces_after 32 operands.entry) }
    ensures bound { IfSome result (λ n. n ≤ most) }
{
    let (field, rest) = cut(operands?, b' ');
    if rest.is_some() {
        return None;
    }
    read_number(field, most)
}

// The same for a number of 8 bits.
pub(crate) fn read_one_byte(operands: Option<&[u8]>) -> Option<u8>
    ensures { result ≡ one_number 255 (pieces_after 32 operands.entry) }
{
    u8::try_from(read_one(operands, u16::from(u8::MAX))?).ok()
}

// The numbers of at most `most` and `other` in the only two operands.
pub(crate) fn read_two(operands: Option<&[u8]>, most: u16, other: u16) -> Option<(u16, u16)>
    ensures { result ≡ two_numbers most other (pieces_after 32 operands.entry) }
{
    let (first, rest) = cut(operands?, b' ');
    let (second, rest) = cut(rest?, b' ');
    if rest.is_some() {
        return None;
    }
    Some((read_number(first, most)?, read_number(second, other)?))
}
