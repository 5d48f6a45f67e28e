ghost use Rattle.std.specs.Prelude.{◌≡◌, [], ◌∷◌, IfOk, OnErr};
ghost use Rattle.words.specs.Reading.{placed, first, left};
ghost use Rattle.sentences.specs.Wants.{reads, name};
ghost use Rattle.sentences.specs.Events.{EventRead, EventStandsIn, event_words, event_in, kind_in, message_in, if_read, peer_by, placed_peer};
ghost use Rattle.charts.specs.declared.kinds.Kind.TheVariants.{Action};

use crate::names::{close, expect_word, read_name, read_peer};
use crate::parts::EventText;
use charts::Kind;
use words::{Cause, Fault, Reader, Word};

// The peer of this word, none where it is the environment.
fn named_peer<'t>(word: Word<'t>) -> Option<Word<'t>>
    ensures { placed_peer result ≡ peer_by (placed word.entry) }
{
    if word.is(b"env") {
        return None;
    }
    Some(word)
}

// The rest of an event that inputs or outputs a message.
fn read_message<'t>(
    reader: &mut Reader<'t>,
    keyword: Word<'t>,
    kind: Kind,
    preposition: &[u8],
) -> Result<EventText<'t>, Fault>
    ensures reads { EventRead (message_in (placed keyword.entry) kind preposition.now (first (left reader.old))) (left reader.old) result (left reader.new) }
    ensures stands { IfOk result (λ e. EventStandsIn reader.old.text.now (event_words e)) }
    ensures keeps { reader.new.text ≡ reader.old.text }
{
    let name = read_name(reader)?;
    expect_word(reader, preposition)?;
    let peer = read_peer(reader)?;
    close(reader)?;
    Ok(EventText {
        start: keyword.start,
        kind,
        name,
        peer: named_peer(peer),
    })
}

// The rest of an action.
fn read_action<'t>(reader: &mut Reader<'t>, keyword: Word<'t>) -> Result<EventText<'t>, Fault>
    ensures reads { EventRead (if_read keyword.entry.start Action (reads (name ∷ []) (first (left reader.old)).words (first (left reader.old)).ending)) (left reader.old) result (left reader.new) }
    ensures stands { IfOk result (λ e. EventStandsIn reader.old.text.now (event_words e)) }
    ensures keeps { reader.new.text ≡ reader.old.text }
{
    let name = read_name(reader)?;
    close(reader)?;
    Ok(EventText {
        start: keyword.start,
        kind: Kind::Action,
        name,
        peer: None,
    })
}

// The kind of an event by its first word.
fn kind_in(word: &Word) -> Option<Kind>
    ensures { result ≡ kind_in word.now.bytes.now }
{
    if word.is(b"in") {
        Some(Kind::Input)
    } else if word.is(b"out") {
        Some(Kind::Output)
    } else if word.is(b"action") {
        Some(Kind::Action)
    } else {
        None
    }
}

// The rest of an event by its first word.
fn read_rest<'t>(reader: &mut Reader<'t>, keyword: Word<'t>) -> Result<EventText<'t>, Fault>
    ensures reads { EventRead (event_in (placed keyword.entry) (first (left reader.old))) (left reader.old) result (left reader.new) }
    ensures stands { IfOk result (λ e. EventStandsIn reader.old.text.now (event_words e)) }
    ensures keeps { reader.new.text ≡ reader.old.text }
{
    match kind_in(&keyword) {
        Some(Kind::Input) => read_message(reader, keyword, Kind::Input, b"from"),
        Some(Kind::Output) => read_message(reader, keyword, Kind::Output, b"to"),
        Some(Kind::Action) => read_action(reader, keyword),
        None => Err(Fault::at(Cause::WrongWord, keyword.start)),
    }
}

// The rest of the event whose first word was read.
pub fn read_event<'t>(reader: &mut Reader<'t>, keyword: Word<'t>) -> Result<EventText<'t>, Fault>
    ensures reads { EventRead (event_in (placed keyword.entry) (first (left reader.old))) (left reader.old) result (left reader.new) }
    ensures stands { IfOk result (λ e. EventStandsIn reader.old.text.now (event_words e)) }
    ensures keeps { reader.new.text ≡ reader.old.text }
    ensures refused { OnErr result (reader.new ≡ reader.old) }
{
    let mut ahead = *reader;
    let event = read_rest(&mut ahead, keyword)?;
    *reader = ahead;
    Ok(event)
}
