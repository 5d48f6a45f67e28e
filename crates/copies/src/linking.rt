ghost use Rattle.std.specs.Prelude.{◌≡◌, ℕ, ◌<◌, false, List, length, MatchOption, ◌&&◌, nat_lt, slice_index_or};
ghost use Rattle.charts.specs.declared.parts.Event.{Event as EventValue};
ghost use Rattle.charts.specs.Events.{is_message};
ghost use Rattle.charts.specs.Lists.{At};
ghost use Rattle.messages.specs.Ends.{kind_of, other_end};
ghost use Rattle.messages.specs.Places.{place_of};
ghost use Rattle.copies.specs.Grids.{no_slot};
ghost use Rattle.copies.specs.Linked.{HasMate, Links};
ghost use Rattle.copies.specs.Lists.{events_in};
ghost use Rattle.copies.specs.Slots.{between, mate_of};

use crate::linker::Linker;
use crate::parts::Slot;
use charts::{Event, Peer};
use messages::End;

impl Linker<'_> {
    // What the event is of its message, none where the message does not go from an instance to an instance.
    fn between(&self, event: Event) -> Option<End>
        ensures { MatchOption result ((is_message event && nat_lt event.peer self.now.width) ≡ false) (λ end. (event.kind ≡ kind_of end) × (event.peer < self.now.width)) }
    {
        match Peer::from(event.peer) {
            Peer::Instance(peer) if usize::from(peer) < self.width => End::of(event),
            _ => None,
        }
    }

    // Where the other event of the event's message was noted on its instance.
    fn mate(&self, end: End, event: Event) -> Option<u16>
        ensures { result ≡ place_of self.now.places.now (other_end end) event.number }
    {
        self.places.find(end.other(), event.number)
    }

    // Where the other event of the event's message stands on its instance, none where the message does not go from an instance to an instance.
    fn link(&self, event: Event) -> Option<u16>
        ensures { (L : List (List EventValue)) (i k : ℕ) → Links self.now L → At L i k event → MatchOption result (between L event ≡ false) (λ mate. mate ≡ mate_of L i event) }
    {
        let end = self.between(event)?;
        self.mate(end, event)
    }

    // Fills in where the other events of the messages stand.
    pub(crate) fn fill(&self, slots: &mut [Slot; 4096])
        ensures same { events_in slots.new ≡ events_in slots.old }
        ensures mated { (L : List (List EventValue)) (p : ℕ) → Links self.now L → p < self.now.events → HasMate L (slice_index_or slots.new p no_slot) }
    {
        for slot in slots[..self.events].iter_mut() {
            slot.mate = self.link(slot.event).unwrap_or(0);
        }
    }
}
