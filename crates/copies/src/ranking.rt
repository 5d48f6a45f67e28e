ghost use Rattle.std.specs.Prelude.{◌≡◌, ℕ, ◌<◌, length, slice_index_or};
ghost use Rattle.charts.specs.Lists.{At, count_of, event_of};
ghost use Rattle.orders.specs.Passing.{passing};
ghost use Rattle.copies.specs.Grids.{Mated, Ranked, no_slot, place_of};
ghost use Rattle.copies.specs.Kept.{grid_lists};
ghost use Rattle.copies.specs.Reranked.{Reranked};
ghost use Rattle.copies.specs.Slots.{ahead_of, is_ahead, mate_of, slot_of};

use crate::grid::Grid;
use crate::parts::Slot;
use charts::Kind;

impl Slot {
    // Whether this is an output to instance i whose input stands there at k or after it. The peer's byte itself: 255 is no instance.
    fn is_ahead(&self, i: usize, k: usize) -> bool
        ensures { result ≡ is_ahead i k self.now }
    {
        self.event.kind == Kind::Output.code()
            && usize::from(self.event.peer) == i
            && k <= usize::from(self.mate)
    }
}

impl Grid {
    // How many messages from the sender to instance i have their outputs before the one at sent, and their inputs at k or after it.
    fn count_ahead(&self, sender: usize, sent: u16, i: usize, k: usize) -> u16
        requires mated { Mated self.now.width self.now.columns self.now.slots }
        requires within { sent < count_of (grid_lists self.now) sender }
        requires receiver { i < length (grid_lists self.now) }
        ensures { result ≡ passing (grid_lists self.now) sender i sent k }
    {
        let before = &self.column(sender)[..usize::from(sent)];
        before.iter().filter(|slot| slot.is_ahead(i, k)).count() as u16
    }

    // How many messages are ahead of the one that event k of instance i inputs; 0 for other events.
    fn ahead(&self, i: usize, k: usize, slot: Slot) -> u16
        requires mated { Mated self.now.width self.now.columns self.now.slots }
        requires here { At (grid_lists self.now) i k slot.event }
        requires mate { slot.mate ≡ mate_of (grid_lists self.now) i slot.event }
        ensures { result ≡ ahead_of (grid_lists self.now) i k slot.event }
    {
        let sender = usize::from(slot.event.peer);
        if slot.event.kind == Kind::Input.code() && sender < self.width {
            self.count_ahead(sender, slot.mate, i, k)
        } else {
            0
        }
    }

    // Fills in how many messages are ahead of those that instance i inputs.
    fn rank_column(&mut self, i: usize)
        requires here { i < self.old.width }
        requires mated { Mated self.old.width self.old.columns self.old.slots }
        ensures same { Reranked self.old self.new }
        ensures ranked { (k : ℕ) → k < count_of (grid_lists self.old) i → (slice_index_or self.new.slots (place_of self.old.columns i k) no_slot).ahead ≡ ahead_of (grid_lists self.old) i k (event_of (grid_lists self.old) i k) }
        ensures before { (p : ℕ) → p < place_of self.old.columns i 0 → slice_index_or self.new.slots p no_slot ≡ slice_index_or self.old.slots p no_slot }
    {
        let places = self.places(i);
        // By places among all, as the grid is read while its slots are filled in.
        for at in places.start..places.end {
            let ahead = self.ahead(i, at - places.start, self.slots[at]);
            self.slots[at].ahead = ahead;
        }
    }

    // Fills in how many messages are ahead of those that are input, on all instances.
    pub(crate) fn rank(&mut self)
        requires { Mated self.old.width self.old.columns self.old.slots }
        ensures lists { grid_lists self.new ≡ grid_lists self.old }
        ensures mated { Mated self.new.width self.new.columns self.new.slots }
        ensures ranked { Ranked self.new.width self.new.columns self.new.slots }
    {
        for i in 0..self.width {
            self.rank_column(i);
        }
    }
}
