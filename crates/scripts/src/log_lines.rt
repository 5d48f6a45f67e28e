ghost use Rattle.std.specs.Prelude.{◌≡◌, List, ℕ, ◌∷◌, IfSome};
ghost use Rattle.std.specs.Option.{option_map};
ghost use Rattle.tabletexts.specs.Pieces.{pieces_after};
ghost use Rattle.scripts.specs.Hex.{bytes_of};
ghost use Rattle.scripts.specs.Statements.{digits_in, log_fields, log_in};

use crate::hex::all_digits;
use tabletexts::cut;

// The digits in the only operand, none without an operand.
#[tactic(auto, using(crate::proofs::Digits::two_fields, crate::proofs::Digits::no_digits, crate::proofs::Digits::bad_digits, crate::proofs::Digits::good_digits))]
fn read_digits(operands: Option<&[u8]>) -> Option<&[u8]>
    ensures bytes { option_map (λ d. bytes_of d.now) result ≡ log_in (pieces_after 32 operands.entry) }
    ensures digits { IfSome result (λ d. d.now ≡ digits_in (pieces_after 32 operands.entry)) }
{
    let Some(operands) = operands else {
        return Some(&[]);
    };
    let (digits, rest) = cut(operands, b' ');
    if rest.is_some() {
        return None;
    }
    if digits.is_empty() || !all_digits(digits) {
        return None;
    }
    Some(digits)
}

// The digits of the log of a word with these operands.
pub(crate) fn read_log<'t>(word: &[u8], operands: Option<&'t [u8]>) -> Option<&'t [u8]>
    ensures bytes { option_map (λ d. bytes_of d.now) result ≡ log_fields (word.now ∷ pieces_after 32 operands.entry) }
    ensures digits { IfSome result (λ d. d.now ≡ digits_in (pieces_after 32 operands.entry)) }
{
    match word {
        b"log" => read_digits(operands),
        _ => None,
    }
}
