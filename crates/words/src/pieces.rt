ghost use Rattle.std.specs.Prelude.{◌≡◌, ◌<◌, ◌≤◌, [], true, length, drop, get_or};
ghost use Rattle.words.specs.Classes.{in_word};
ghost use Rattle.words.specs.Sentences.{sentences, sentences_from};
ghost use Rattle.words.specs.Reading.{left, BeginsWith, WordStandsIn, WordFrom, SkipsBlanks};

use crate::classes::{Class, class_of};
use crate::faults::{Cause, Fault};
use crate::parts::{Piece, Word};
use crate::reader::Reader;

// No word is longer.
const LONGEST: usize = 16;

// The place of the first byte from here on that is no blank, the text's length where there is none.
fn skip_blanks(text: &[u8], at: usize) -> usize
    requires { at ≤ length text.now }
    ensures { SkipsBlanks text.now at result }
{
    for (blanks, byte) in text[at..].iter().enumerate() {
        match class_of(*byte) {
            Class::Blank => {}
            _ => return at + blanks,
        }
    }
    text.len()
}

// The place after the word that starts here.
fn word_end(text: &[u8], start: usize) -> Result<usize, Fault>
    requires within { start < length text.now }
    requires begins { in_word (get_or text.now start 0) ≡ true }
    ensures { WordFrom text.now start result }
{
    for (length, byte) in text[start..].iter().enumerate() {
        let byte_at = start + length;
        match class_of(*byte) {
            Class::Word if length < LONGEST => {}
            Class::Word => return Err(Fault::at(Cause::LongWord, byte_at)),
            Class::Other => return Err(Fault::at(Cause::BadByte, byte_at)),
            Class::Blank => return Ok(byte_at),
            Class::Semicolon => return Ok(byte_at),
        }
    }
    Ok(text.len())
}

impl<'t> Reader<'t> {
    // The whole text, none of it read.
    pub fn new(text: &'t [u8]) -> Reader<'t>
        ensures left { left result ≡ sentences text.now }
        ensures text { result.text.now ≡ text.now }
    {
        Reader { text, at: 0 }
    }

    // The next word or semicolon, or the end of the text. A fault leaves what is left to read as it was.
    pub fn next_piece(&mut self) -> Result<Piece<'t>, Fault>
        ensures begins { BeginsWith (left self.old) result (left self.new) }
        ensures stands { WordStandsIn self.old.text.now result }
        ensures keeps { self.new.text ≡ self.old.text }
    {
        let text = self.text;
        let start = skip_blanks(text, self.at);
        let Some(byte) = text.get(start) else {
            return Ok(Piece::End(text.len()));
        };
        match class_of(*byte) {
            Class::Word => {
                let end = word_end(text, start)?;
                self.at = end;
                Ok(Piece::Word(Word {
                    start,
                    bytes: &text[start..end],
                }))
            }
            Class::Semicolon => {
                self.at = start + 1;
                Ok(Piece::Semicolon(start))
            }
            Class::Blank | Class::Other => Err(Fault::at(Cause::BadByte, start)),
        }
    }
}
