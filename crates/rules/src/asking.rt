ghost use Rattle.std.specs.Prelude.{◌≡◌, length};
ghost use Rattle.charts.specs.Lists.{count_of, size};
ghost use Rattle.copies.specs.Slots.{slot_at};
ghost use Rattle.orders.specs.Deciding.{unfinished};
ghost use Rattle.orders.specs.Driving.{lowest as lowest_of};
ghost use Rattle.rules.specs.Held.{some_below};
ghost use Rattle.rules.specs.Made.{steps_made};
ghost use Rattle.rules.specs.Boards.{lists_of, positions};

use crate::board::Board;
use charts::Fault;
use copies::Slot;

impl Board {
    // What is wrong with the chart that the run was given, none where it is sound.
    pub fn fault(&self) -> Option<Fault>
        ensures { result ≡ self.now.copy.fault }
    {
        self.copy.fault()
    }

    // How many instances the chart has.
    pub fn width(&self) -> usize
        ensures { result ≡ length (lists_of self.now) }
    {
        self.copy.width()
    }

    // How many events instance i has.
    pub fn count(&self, i: usize) -> usize
        ensures { result ≡ count_of (lists_of self.now) i }
    {
        self.copy.count(i)
    }

    // How many events the chart has.
    pub fn events(&self) -> usize
        ensures { result ≡ size (lists_of self.now) }
    {
        self.copy.events()
    }

    // How many events of instance i have run.
    pub fn position(&self, i: usize) -> usize
        ensures { result ≡ positions self.now i }
    {
        self.rows.position(i)
    }

    // The next event of instance i, none where it has finished.
    pub fn next(&self, i: usize) -> Option<Slot>
        ensures { result ≡ slot_at (lists_of self.now) i (positions self.now i) }
    {
        self.copy.slot(i, self.position(i))
    }

    // The lowest-numbered instance that has an event left.
    pub fn lowest_unfinished(&self) -> Option<usize>
        ensures { result ≡ some_below (length (lists_of self.now)) (lowest_of (unfinished (lists_of self.now) (positions self.now)) (length (lists_of self.now))) }
    {
        (0..self.copy.width()).find(|j| self.position(*j) < self.copy.count(*j))
    }

    // How many steps were made.
    pub fn made(&self) -> usize
        ensures { result ≡ steps_made (lists_of self.now) (positions self.now) }
    {
        (0..self.copy.width()).map(|j| self.position(j)).sum()
    }
}
