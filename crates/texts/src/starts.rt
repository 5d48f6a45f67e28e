ghost use Rattle.std.specs.Prelude.{◌≡◌};
ghost use Rattle.words.specs.Sentences.{sentences};
ghost use Rattle.items.specs.Surveys.{items_in};
ghost use Rattle.texts.specs.Whole.{Whole};
ghost use Rattle.texts.specs.Starts.{start_in};

use items::{Item, Parser};

// Where an event starts, by its instance and its index there.
pub(crate) fn start_of(text: &[u8], instance: usize, index: usize) -> usize
    requires { Whole (sentences text.now) }
    ensures { result ≡ start_in instance index (items_in (sentences text.now)) }
{
    let Ok((_, mut parser)) = Parser::begin(text) else {
        return 0;
    };
    // what stands before it
    let mut instances = instance;
    let mut events = index;
    loop {
        let Ok(item) = parser.next() else {
            return 0;
        };
        match item {
            Item::Event(event) if instances == 0 && events == 0 => return event.start,
            Item::Event(_) if instances == 0 => events -= 1,
            Item::InstanceEnd if instances > 0 => instances -= 1,
            Item::InstanceEnd | Item::End => return 0,
            Item::Instance(_) | Item::Event(_) => {}
        }
    }
}
