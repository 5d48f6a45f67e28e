ghost use Rattle.std.specs.Prelude.{◌≡◌, ℕ, if◌then◌else◌, Some};
ghost use Rattle.copies.specs.Slots.{slot_at};
ghost use Rattle.orders.specs.Deciding.{unfinished};
ghost use Rattle.orders.specs.Driving.{moved};
ghost use Rattle.rules.specs.Boards.{lists_of, positions};

use crate::board::Board;
use copies::Slot;

impl Board {
    // One step of instance i, whose next event is the slot's.
    pub(crate) fn step(&mut self, i: usize, slot: Slot)
        requires next { slot_at (lists_of self.old) i (positions self.old i) ≡ Some slot }
        ensures keeps { self.new.copy ≡ self.old.copy }
        ensures moves { (j : ℕ) → positions self.new j ≡ moved (positions self.old) i j }
    {
        let width = self.copy.width();
        let ran = self.mate_ran(slot);
        self.rows.pass(i, slot, width, ran);
        self.rows.advance(i);
    }

    // One step of instance i: its next event has run. Nothing changes where it has finished.
    pub fn advance(&mut self, i: usize)
        ensures keeps { self.new.copy ≡ self.old.copy }
        ensures moves { (j : ℕ) → positions self.new j ≡ (if unfinished (lists_of self.old) (positions self.old) i then moved (positions self.old) i j else positions self.old j) }
    {
        if let Some(slot) = self.next(i) {
            self.step(i, slot);
        }
    }
}
