ghost use Rattle.std.specs.Prelude.{◌≡◌, take};
ghost use Rattle.words.specs.Sentences.{sentences};
ghost use Rattle.sentences.specs.Wants.{among};
ghost use Rattle.items.specs.Surveys.{names_in, items_in, is_named};

use crate::parser::Parser;
use crate::parts::Item;

impl<'t> Item<'t> {
    // Whether it begins an instance of this name.
    fn is_named(&self, name: &[u8]) -> bool
        ensures { result ≡ is_named self.now name.now }
    {
        match self {
            Item::Instance(word) => word.is(name),
            _ => false,
        }
    }
}

// Whether one of the first items of the text, so many, is an instance of this name.
pub(crate) fn named_among<'t>(text: &'t [u8], count: usize, name: &[u8]) -> bool
    ensures { result ≡ among (names_in (take count (items_in (sentences text.now)))) name.now }
{
    let Ok((_, mut parser)) = Parser::begin(text) else {
        return false;
    };
    for _ in 0..count {
        let Ok(item) = parser.next() else {
            return false;
        };
        if item.is_named(name) {
            return true;
        }
    }
    false
}
