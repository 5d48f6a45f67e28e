ghost use Rattle.std.specs.Prelude.{◌≡◌, IfOk};
ghost use Rattle.words.specs.Reading.{left, placed, StandsIn};
ghost use Rattle.words.specs.Sentences.{sentences};
ghost use Rattle.items.specs.Parsing.{items_left, ItemRead, ItemStandsIn, StepRead, Begins};

use crate::items::{read_inside, read_outside};
use crate::parser::Parser;
use crate::parts::{Item, Stage};
use sentences::{close, expect_word, read_name};
use words::{Fault, Reader, Word};

impl<'t> Parser<'t> {
    // Reads the name of the text, in its first sentence.
    pub fn begin(text: &'t [u8]) -> Result<(Word<'t>, Parser<'t>), Fault>
        ensures begins { Begins (sentences text.now) result }
        ensures stands { IfOk result (λ r. StandsIn text.now (placed r.0) × (r.1.reader.text.now ≡ text.now)) }
    {
        let mut reader = Reader::new(text);
        expect_word(&mut reader, b"msc")?;
        let name = read_name(&mut reader)?;
        close(&mut reader)?;
        Ok((
            name,
            Parser {
                reader,
                stage: Stage::Outside,
            },
        ))
    }

    // What stands next, and where the parser then stands.
    fn read(&mut self) -> Result<(Item<'t>, Stage), Fault>
        ensures reads { StepRead (items_left self.old) result (left self.new.reader) }
        ensures stands { IfOk result (λ r. ItemStandsIn self.old.reader.text.now r.0) }
        ensures keeps { self.new.reader.text ≡ self.old.reader.text }
    {
        match self.stage {
            Stage::Outside => read_outside(&mut self.reader),
            Stage::Heading => {
                close(&mut self.reader)?;
                read_inside(&mut self.reader)
            }
            Stage::Inside => read_inside(&mut self.reader),
            Stage::Done => Ok((Item::End, Stage::Done)),
            Stage::Refused(fault) => Err(fault),
        }
    }

    // The next item. After the end there is always the end, and after a fault that fault.
    pub fn next(&mut self) -> Result<Item<'t>, Fault>
        ensures reads { ItemRead (items_left self.old) result (items_left self.new) }
        ensures stands { IfOk result (λ i. ItemStandsIn self.old.reader.text.now i) }
        ensures keeps { self.new.reader.text ≡ self.old.reader.text }
    {
        match self.read() {
            Ok((item, stage)) => {
                self.stage = stage;
                Ok(item)
            }
            Err(fault) => {
                self.stage = Stage::Refused(fault);
                Err(fault)
            }
        }
    }
}
