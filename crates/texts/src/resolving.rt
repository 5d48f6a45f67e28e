ghost use Rattle.std.specs.Prelude.{◌≡◌, List};
ghost use Rattle.words.specs.Sentences.{Placed};
ghost use Rattle.sentences.specs.Events.{event_words};
ghost use Rattle.texts.specs.Noting.{Indexes};
ghost use Rattle.texts.specs.Numbering.{place_of};
ghost use Rattle.texts.specs.Directories.{Named, Knows};
ghost use Rattle.texts.specs.Resolving.{AreBytes, PeerFound, Resolves};

use crate::directory::Directory;
use charts::{Event, Kind, Peer};
use names::Names;
use sentences::EventText;
use words::{Cause, Fault, Word};

// The number of a name; one that was not noted has the next.
#[tactic(auto, using(crate::proofs::Noted::found_place))]
fn number_of(names: &Names, word: &Word) -> u16
    ensures { (ns : List Placed) → Indexes names.now ns → result ≡ place_of ns word.now.bytes.now }
{
    names.find(word.bytes).unwrap_or(names.len() as u16)
}

impl Directory<'_> {
    // The peer of an event, where it is known.
    fn find_peer(&self, peer: Option<Word>) -> Result<Peer, Fault>
        requires { AreBytes self.now.instances }
        ensures { (ns : List Placed) → Indexes self.now.instances ns → PeerFound ns peer.entry result }
    {
        let Some(word) = peer else {
            return Ok(Peer::Environment);
        };
        match self.instances.find(word.bytes) {
            Some(number) => Ok(Peer::Instance(number as u8)),
            None => Err(Fault::at(Cause::PeerUnknown, word.start)),
        }
    }

    // The event with numbers for its names, where its peer is known.
    pub(crate) fn resolve(&self, event: &EventText) -> Result<Event, Fault>
        requires { AreBytes self.now.instances }
        ensures { (s : Named) → Knows self.now s → Resolves s (event_words event.now) result }
    {
        let peer = self.find_peer(event.peer)?;
        let number = match event.kind {
            Kind::Output | Kind::Input => number_of(&self.messages, &event.name),
            Kind::Action => number_of(&self.actions, &event.name),
        };
        Ok(Event::new(event.kind, peer, number))
    }
}
