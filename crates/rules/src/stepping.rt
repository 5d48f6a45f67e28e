ghost use Rattle.std.specs.Prelude.{◌≡◌, ℕ, ◌+◌, ◌^◌, ◌<◌, ◌≤◌, ◌&&◌, if◌then◌else◌, ◌==◌, nat_eq};
ghost use Rattle.orders.specs.Driving.{moved};
ghost use Rattle.rules.specs.Places.{place_of, sent_of};

use crate::row::NEW_ROW;
use crate::rows::Rows;

impl Rows {
    // No instance has stepped, and nothing is on the way.
    pub(crate) fn new() -> Rows
        ensures places { (i : ℕ) → place_of result.table i ≡ 0 }
        ensures counts { (i j : ℕ) → sent_of result.table i j ≡ 0 }
    {
        Rows {
            table: [NEW_ROW; 32],
        }
    }

    // How many events of instance i have run.
    pub(crate) fn position(&self, i: usize) -> usize
        ensures { result ≡ place_of self.now.table i }
    {
        self.table.get(i).map_or(0, |row| usize::from(row.position))
    }

    // How many messages are on the way from i to j.
    pub(crate) fn on_the_way(&self, i: usize, j: usize) -> usize
        ensures { result ≡ sent_of self.now.table i j }
    {
        self.table
            .get(i)
            .and_then(|row| row.sent.get(j))
            .map_or(0, |count| usize::from(*count))
    }

    // One message more is on the way from i to j. Its twin below takes one away: one method of both would take the step as a closure, and say less.
    pub(crate) fn send(&mut self, i: usize, j: usize)
        requires sender { i < 32 }
        requires receiver { j < 32 }
        requires fits { sent_of self.old.table i j + 1 < 2 ^ 16 }
        ensures places { (x : ℕ) → place_of self.new.table x ≡ place_of self.old.table x }
        ensures counts { (x y : ℕ) → sent_of self.new.table x y ≡ sent_of self.old.table x y + (if nat_eq i x && j == y then 1 else 0) }
    {
        let row = &mut self.table[i];
        row.sent[j] += 1;
    }

    // One message less is on the way from i to j.
    pub(crate) fn receive(&mut self, i: usize, j: usize)
        requires sender { i < 32 }
        requires receiver { j < 32 }
        requires sent { 1 ≤ sent_of self.old.table i j }
        ensures places { (x : ℕ) → place_of self.new.table x ≡ place_of self.old.table x }
        ensures counts { (x y : ℕ) → sent_of self.new.table x y + (if nat_eq i x && j == y then 1 else 0) ≡ sent_of self.old.table x y }
    {
        let row = &mut self.table[i];
        row.sent[j] -= 1;
    }

    // One event more of instance i has run.
    pub(crate) fn advance(&mut self, i: usize)
        requires instance { i < 32 }
        requires fits { place_of self.old.table i + 1 < 2 ^ 16 }
        ensures places { (x : ℕ) → place_of self.new.table x ≡ moved (place_of self.old.table) i x }
        ensures counts { (x y : ℕ) → sent_of self.new.table x y ≡ sent_of self.old.table x y }
    {
        let row = &mut self.table[i];
        row.position += 1;
    }
}
