ghost use Rattle.std.specs.Prelude.{◌≡◌, ℕ, ◌+◌, ◌^◌, ◌<◌, ◌≤◌, true, ◌&&◌, if◌then◌else◌, ◌==◌};
ghost use Rattle.rules.specs.Places.{place_of, sent_of};
ghost use Rattle.rules.specs.Rules.{sends_now, receives_now};

use crate::rows::Rows;
use charts::Kind;
use copies::Slot;

impl Rows {
    // The peer's byte itself: 255 is no instance below the width.
    // Counts the message that the slot's event, the next of instance i, outputs or inputs; ran says whether its other event has run.
    pub(crate) fn pass(&mut self, i: usize, slot: Slot, width: usize, ran: bool)
        requires instance { i < 32 }
        requires narrow { width ≤ 32 }
        requires fits { sends_now width ran slot ≡ true → sent_of self.old.table i slot.event.peer + 1 < 2 ^ 16 }
        requires sent { receives_now width ran slot ≡ true → 1 ≤ sent_of self.old.table slot.event.peer i }
        ensures places { (x : ℕ) → place_of self.new.table x ≡ place_of self.old.table x }
        ensures counts { (x y : ℕ) → sent_of self.new.table x y + (if receives_now width ran slot && (slot.event.peer == x && i == y) then 1 else 0) ≡ sent_of self.old.table x y + (if sends_now width ran slot && (i == x && slot.event.peer == y) then 1 else 0) }
    {
        let peer = usize::from(slot.event.peer);
        match Kind::try_from(slot.event.kind) {
            Ok(Kind::Output) if peer < width && !ran => self.send(i, peer),
            Ok(Kind::Input) if peer < width && ran => self.receive(peer, i),
            _ => {}
        }
    }
}
