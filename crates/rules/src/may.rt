ghost use Rattle.std.specs.Prelude.{◌≡◌, length, if◌then◌else◌};
ghost use Rattle.orders.specs.Deciding.{unfinished, may_now_at, waits_now};
ghost use Rattle.rules.specs.Places.{sent_of};
ghost use Rattle.rules.specs.Rules.{mate_ran, slot_may, slot_waits};
ghost use Rattle.rules.specs.Boards.{lists_of, positions};

use crate::board::Board;
use charts::{Kind, Peer};
use copies::Slot;
use media::Medium;

impl Board {
    // Whether the other event of the slot's message has run. The peer's byte itself: 255 is no instance, and has no position.
    pub(crate) fn mate_ran(&self, slot: Slot) -> bool
        ensures { result ≡ mate_ran (positions self.now) slot }
    {
        usize::from(slot.mate) < self.position(usize::from(slot.event.peer))
    }

    // Whether the slot's event, the next of instance i, may run.
    pub(crate) fn allows<M: Medium>(&self, medium: &M, i: usize, slot: Slot) -> bool
        ensures { result ≡ slot_may (M.carries medium.now) (length (lists_of self.now)) (positions self.now) (sent_of self.now.rows.table) i slot }
    {
        let width = self.copy.width();
        match (Kind::try_from(slot.event.kind), Peer::from(slot.event.peer)) {
            (Ok(Kind::Action), _) => true,
            (Ok(Kind::Output | Kind::Input), Peer::Environment) => true,
            (Ok(Kind::Output), Peer::Instance(peer)) if usize::from(peer) < width => {
                let peer = usize::from(peer);
                medium.sends(i, peer, self.rows.on_the_way(i, peer))
            }
            (Ok(Kind::Input), Peer::Instance(peer)) if usize::from(peer) < width => {
                self.mate_ran(slot) && medium.takes(usize::from(peer), i, usize::from(slot.ahead))
            }
            (_, _) => false,
        }
    }

    // Whether instance i has an event left, and its next may run.
    pub fn may<M: Medium>(&self, medium: &M, i: usize) -> bool
        ensures { result ≡ may_now_at (M.carries medium.now) (lists_of self.now) (positions self.now) i }
    {
        match self.next(i) {
            None => false,
            Some(slot) => self.allows(medium, i, slot),
        }
    }

    // What the slot's event, the next of instance i, waits for where it may not run; an action, or an event with the environment, never waits.
    fn awaits(&self, i: usize, slot: Slot) -> usize
        ensures { result ≡ slot_waits (positions self.now) i slot }
    {
        let peer = usize::from(slot.event.peer);
        match Kind::try_from(slot.event.kind) {
            Ok(Kind::Output) => peer,
            _ if self.mate_ran(slot) => i,
            _ => peer,
        }
    }

    // What the next event of instance i waits for where it may not run; i itself where it has finished, so that a walk along the waits stays there.
    pub fn waits_for(&self, i: usize) -> usize
        ensures { result ≡ (if unfinished (lists_of self.now) (positions self.now) i then waits_now (lists_of self.now) (positions self.now) i else i) }
    {
        match self.next(i) {
            None => i,
            Some(slot) => self.awaits(i, slot),
        }
    }
}
