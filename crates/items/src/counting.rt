ghost use Rattle.std.specs.Prelude.{◌≡◌, ◌+◌, ◌^◌, ◌<◌, [], take, length};
ghost use Rattle.words.specs.Sentences.{sentences};
ghost use Rattle.items.specs.Surveys.{items_in};
ghost use Rattle.items.specs.Tallies.{Holds, Takes};

use crate::known::is_repeated;
use crate::parts::Item;
use crate::tally::Tally;
use names::Names;
use words::{Cause, Fault};

impl<'t> Tally<'t> {
    // Of no item.
    pub(crate) fn new() -> Tally<'t>
        ensures { Holds result [] }
    {
        Tally {
            names: Names::new(),
            read: 0,
            instances: 0,
            events: 0,
        }
    }

    // One item more of the text; an instance that was named before is refused.
    pub(crate) fn take(&mut self, text: &'t [u8], item: Item<'t>) -> Result<(), Fault>
        requires holds { Holds self.old (take self.old.read (items_in (sentences text.now))) }
        requires fits { length (take self.old.read (items_in (sentences text.now))) + 1 < 2 ^ 64 }
        ensures { Takes (take self.old.read (items_in (sentences text.now))) item.entry result self.new }
    {
        match item {
            Item::Instance(name) => {
                if is_repeated(text, self.read, &mut self.names, name.bytes) {
                    return Err(Fault::at(Cause::InstanceRepeated, name.start));
                }
                self.instances += 1;
            }
            Item::Event(_) => self.events += 1,
            Item::InstanceEnd => {}
            Item::End => return Ok(()),
        }
        self.read += 1;
        Ok(())
    }
}
