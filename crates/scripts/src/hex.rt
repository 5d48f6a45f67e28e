ghost use Rattle.std.specs.Prelude.{◌≡◌, IfOk, vec_items};
ghost use Rattle.scripts.specs.Hex.{all_digits, byte_of, bytes_of, digit};

use std::alloc::{AllocError, Global};

// The value of a hexadecimal digit.
fn read_digit(byte: u8) -> Option<u8>
    ensures { result ≡ digit byte }
{
    match byte {
        b'0'..=b'9' => Some(byte - b'0'),
        b'A'..=b'F' => Some(byte - b'A' + 10),
        b'a'..=b'f' => Some(byte - b'a' + 10),
        _ => None,
    }
}

// The byte that two digits write.
fn read_byte(high: u8, low: u8) -> Option<u8>
    ensures { result ≡ byte_of (digit high) (digit low) }
{
    Some(16 * read_digit(high)? + read_digit(low)?)
}

// Whether these are hexadecimal digits, an even number of them.
pub(crate) fn all_digits(mut digits: &[u8]) -> bool
    ensures { result ≡ all_digits digits.now }
{
    'pairs: while let [high, low, rest @ ..] = digits {
        if read_byte(*high, *low).is_none() {
            return false;
        }
        digits = rest;
    }
    digits.is_empty()
}

// The bytes that hexadecimal digits write, two a byte; none from the first two on that are no digits.
pub fn hex_bytes(heap: Global, digits: &[u8]) -> Result<Vec<u8>, AllocError>
    ensures { IfOk result (λ v. vec_items v ≡ bytes_of digits.now) }
{
    let mut bytes = Vec::new(heap);
    let mut rest = digits;
    'pairs: while let [high, low, behind @ ..] = rest {
        let Some(byte) = read_byte(*high, *low) else {
            return Ok(bytes);
        };
        bytes.push(byte)?;
        rest = behind;
    }
    Ok(bytes)
}
