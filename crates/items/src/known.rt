ghost use Rattle.std.specs.Prelude.{◌≡◌, ℕ, List, [], ◌∷◌, ◌++◌, false, take};
ghost use Rattle.words.specs.Sentences.{Placed, sentences};
ghost use Rattle.sentences.specs.Wants.{among};
ghost use Rattle.items.specs.Surveys.{names_in, items_in};
ghost use Rattle.items.specs.Known.{Knows};

use crate::repeats::named_among;
use names::{Names, Refusal};

// Whether an instance of this name is among the first items of the text, so many; if not, it is noted.
// A full index does not know every name, so then the text is read again.
pub(crate) fn is_repeated<'t>(
    text: &'t [u8],
    read: usize,
    names: &mut Names<'t>,
    name: &'t [u8],
) -> bool
    requires { Knows names.old (names_in (take read (items_in (sentences text.now)))) }
    ensures repeated { result ≡ among (names_in (take read (items_in (sentences text.now)))) name.now }
    ensures knows { result ≡ false → (p : Placed) → p.bytes ≡ name.now → Knows names.new (names_in (take read (items_in (sentences text.now))) ++ (p ∷ [])) }
{
    match names.note(name, 0) {
        Ok(()) => false,
        Err(Refusal::Repeated) => true,
        Err(Refusal::Full) => named_among(text, read, name),
    }
}
