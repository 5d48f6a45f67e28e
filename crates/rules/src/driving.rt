ghost use Rattle.std.specs.Prelude.{◌≡◌, length, true, false, Some, MatchOption};
ghost use Rattle.copies.specs.Slots.{slot_at};
ghost use Rattle.orders.specs.Driving.{lowest as lowest_of};
ghost use Rattle.rules.specs.Held.{held_now, is_held, some_below};
ghost use Rattle.rules.specs.Drove.{Wrote, LowestSlot};
ghost use Rattle.rules.specs.Instances.{Covers};
ghost use Rattle.rules.specs.Boards.{lists_of, positions, drive_of};

use crate::board::Board;
use crate::held::Held;
use crate::instances::Instances;
use copies::Slot;
use media::Medium;

impl Board {
    // Whether the next event of instance j is the one that is held.
    fn is_held(&self, held: Option<Held>, j: usize) -> bool
        ensures { result ≡ is_held held (positions self.now) j }
    {
        match held {
            None => false,
            Some(Held { instance, event }) => { j == instance && self.position(instance) == event }
        }
    }

    // The next event of instance j, if it may run and is not the one that is held.
    // The medium is the run's own and lent, what is held changes from drive to drive: no type has both.
    fn runnable<M: Medium>(&self, medium: &M, held: Option<Held>, j: usize) -> Option<Slot>
        ensures { MatchOption result (held_now (M.carries medium.now) (lists_of self.now) held (positions self.now) j ≡ false) (λ slot. (held_now (M.carries medium.now) (lists_of self.now) held (positions self.now) j ≡ true) × (slot_at (lists_of self.now) j (positions self.now j) ≡ Some slot)) }
    {
        let slot = self.next(j)?;
        if !self.is_held(held, j) && self.allows(medium, j, slot) {
            Some(slot)
        } else {
            None
        }
    }

    // The lowest of the candidates that may run, and not by the event that is held, with its next event. The candidates below it are struck out: they may not.
    fn lowest_among<M: Medium>(
        &self,
        medium: &M,
        held: Option<Held>,
        candidates: &mut Instances,
    ) -> Option<(usize, Slot)>
        requires { Covers (held_now (M.carries medium.now) (lists_of self.now) held (positions self.now)) (length (lists_of self.now)) candidates.old }
        ensures lowest { LowestSlot (lists_of self.now) (positions self.now) (held_now (M.carries medium.now) (lists_of self.now) held (positions self.now)) result }
        ensures covers { Covers (held_now (M.carries medium.now) (lists_of self.now) held (positions self.now)) (length (lists_of self.now)) candidates.new }
    {
        while let Some(j) = candidates.lowest() {
            if let Some(slot) = self.runnable(medium, held, j) {
                return Some((j, slot));
            }
            candidates.remove(j);
        }
        None
    }

    // The lowest-numbered instance that may run, and not by the event that is held.
    pub fn lowest<M: Medium>(&self, medium: &M, held: Option<Held>) -> Option<usize>
        ensures { result ≡ some_below (length (lists_of self.now)) (lowest_of (held_now (M.carries medium.now) (lists_of self.now) held (positions self.now)) (length (lists_of self.now))) }
    {
        let (j, _) = self.lowest_among(medium, held, &mut Instances::all())?;
        Some(j)
    }

    // Makes as many lowest-numbered steps as the buffer is long, or until none is left, and writes their instances.
    // The buffer is the caller's, since a run has no heap.
    // A step leaves what may run of every instance but the one that steps and the peer of its event, so of those struck out only the peer is a candidate again.
    pub fn drive<M: Medium>(&mut self, medium: &M, held: Option<Held>, out: &mut [u8]) -> usize
        ensures keeps { self.new.copy ≡ self.old.copy }
        ensures wrote { Wrote (drive_of (M.carries medium.now) self.old held (length out.old)) self.old.rows.table self.new.rows.table out.old out.new }
        ensures made { result ≡ length (drive_of (M.carries medium.now) self.old held (length out.old)) }
    {
        let mut candidates = Instances::all();
        for (made, cell) in out.iter_mut().enumerate() {
            let Some((i, slot)) = self.lowest_among(medium, held, &mut candidates) else {
                return made;
            };
            candidates.insert(usize::from(slot.event.peer));
            self.step(i, slot);
            *cell = i as u8;
        }
        out.len()
    }
}
