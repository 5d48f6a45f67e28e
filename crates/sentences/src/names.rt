ghost use Rattle.std.specs.Prelude.{◌≡◌, IfOk, OnErr};
ghost use Rattle.words.specs.Reading.{left, placed, StandsIn};
ghost use Rattle.sentences.specs.Wants.{structure_word, event_word, reserved, exactly, name, peer};
ghost use Rattle.sentences.specs.Reading.{TakesWord, Takes, Accepts, Closes};

use words::{Cause, Fault, Piece, Reader, Word};

// Whether the word is one of the grammar's around instances.
fn is_structure_word(word: &Word) -> bool
    ensures { result ≡ structure_word word.now.bytes.now }
{
    word.is(b"msc") || word.is(b"endmsc") || word.is(b"instance") || word.is(b"endinstance")
}

// Whether the word is one of the grammar's in events.
fn is_event_word(word: &Word) -> bool
    ensures { result ≡ event_word word.now.bytes.now }
{
    word.is(b"in")
        || word.is(b"from")
        || word.is(b"out")
        || word.is(b"to")
        || word.is(b"action")
        || word.is(b"env")
}

// Whether the word is one of the grammar, and so no name.
fn is_reserved(word: &Word) -> bool
    ensures { result ≡ reserved word.now.bytes.now }
{
    is_structure_word(word) || is_event_word(word)
}

// The next word of the sentence.
pub fn read_word<'t>(reader: &mut Reader<'t>) -> Result<Word<'t>, Fault>
    ensures takes { TakesWord (left reader.old) result (left reader.new) }
    ensures stands { IfOk result (λ w. StandsIn reader.old.text.now (placed w)) }
    ensures keeps { reader.new.text ≡ reader.old.text }
    ensures refused { OnErr result (reader.new ≡ reader.old) }
{
    let mut ahead = *reader;
    match ahead.next_piece()? {
        Piece::Word(word) => {
            *reader = ahead;
            Ok(word)
        }
        Piece::Semicolon(byte) => Err(Fault::at(Cause::WrongWord, byte)),
        Piece::End(byte) => Err(Fault::at(Cause::TextEnds, byte)),
    }
}

// The word, where it is wanted.
fn accept<'t>(word: Word<'t>, is_wanted: bool) -> Result<Word<'t>, Fault>
    ensures { Accepts word.entry is_wanted result }
{
    if is_wanted {
        Ok(word)
    } else {
        Err(Fault::at(Cause::WrongWord, word.start))
    }
}

// The next word, which has to be this one.
pub fn expect_word<'t>(reader: &mut Reader<'t>, expected: &[u8]) -> Result<Word<'t>, Fault>
    ensures takes { Takes (exactly expected.now) (left reader.old) result (left reader.new) }
    ensures stands { IfOk result (λ w. StandsIn reader.old.text.now (placed w)) }
    ensures keeps { reader.new.text ≡ reader.old.text }
    ensures refused { OnErr result (reader.new ≡ reader.old) }
{
    let mut ahead = *reader;
    let word = read_word(&mut ahead)?;
    let word = accept(word, word.is(expected))?;
    *reader = ahead;
    Ok(word)
}

// The next word, which has to be a name.
pub fn read_name<'t>(reader: &mut Reader<'t>) -> Result<Word<'t>, Fault>
    ensures takes { Takes name (left reader.old) result (left reader.new) }
    ensures stands { IfOk result (λ w. StandsIn reader.old.text.now (placed w)) }
    ensures keeps { reader.new.text ≡ reader.old.text }
    ensures refused { OnErr result (reader.new ≡ reader.old) }
{
    let mut ahead = *reader;
    let word = read_word(&mut ahead)?;
    let word = accept(word, !is_reserved(&word))?;
    *reader = ahead;
    Ok(word)
}

// The next word, which has to be a name or `env`.
pub fn read_peer<'t>(reader: &mut Reader<'t>) -> Result<Word<'t>, Fault>
    ensures takes { Takes peer (left reader.old) result (left reader.new) }
    ensures stands { IfOk result (λ w. StandsIn reader.old.text.now (placed w)) }
    ensures keeps { reader.new.text ≡ reader.old.text }
    ensures refused { OnErr result (reader.new ≡ reader.old) }
{
    let mut ahead = *reader;
    let word = read_word(&mut ahead)?;
    let word = accept(word, word.is(b"env") || !is_reserved(&word))?;
    *reader = ahead;
    Ok(word)
}

// The semicolon of the sentence.
pub fn close<'t>(reader: &mut Reader<'t>) -> Result<(), Fault>
    ensures closes { Closes (left reader.old) result (left reader.new) }
    ensures keeps { reader.new.text ≡ reader.old.text }
    ensures refused { OnErr result (reader.new ≡ reader.old) }
{
    let mut ahead = *reader;
    match ahead.next_piece()? {
        Piece::Semicolon(_) => {
            *reader = ahead;
            Ok(())
        }
        Piece::Word(word) => Err(Fault::at(Cause::WrongWord, word.start)),
        Piece::End(byte) => Err(Fault::at(Cause::TextEnds, byte)),
    }
}
