ghost use Rattle.std.specs.Prelude.{◌≡◌, Some, None, MatchResult};
ghost use Rattle.polling.specs.Limits.{trouble_of, lists_of};
ghost use Rattle.polling.proofs.Judged.{judged};

use crate::schedule::Schedule;
use charts::{Chart, Event, Fault, Layer, NO_EVENT, Rule, Summary};

// The most keypads that a panel polls.
pub const MOST_KEYPADS: usize = 31;

// The most rounds that it polls them in.
pub const MOST_ROUNDS: usize = 32;

// A panel that polls each of its keypads in turn, round after round.
#[derive(Clone, Copy)]
pub struct Poll {
    keypads: usize,
    rounds: usize,
}

impl Poll {
    // A poll of any size: one past the limits is a spoiled chart.
    pub fn new(keypads: usize, rounds: usize) -> Poll
        ensures { result ≡ record { keypads = keypads; rounds = rounds } }
    {
        Poll { keypads, rounds }
    }

    // The exchanges of a poll within the limits, else the fault.
    fn schedule(&self) -> Result<Schedule, Fault>
        ensures { MatchResult result
            (λ s. (s.keypads ≡ self.now.keypads) × (s.rounds ≡ self.now.rounds) × (trouble_of self.now.keypads self.now.rounds ≡ None))
            (λ fault. trouble_of self.now.keypads self.now.rounds ≡ Some fault) }
    {
        if self.keypads <= MOST_KEYPADS && self.rounds <= MOST_ROUNDS {
            Ok(Schedule {
                keypads: self.keypads,
                rounds: self.rounds,
            })
        } else {
            Err(Fault::of_whole(Layer::Poll, Rule::Poll))
        }
    }
}

impl Chart for Poll {
    ghost lists = { λ p. lists_of p.keypads p.rounds };

    ghost trouble = { λ p. trouble_of p.keypads p.rounds };

    ghost sound = { λ p. judged p.keypads p.rounds };

    fn summary(&self) -> Result<Summary, Fault> {
        Ok(self.schedule()?.size())
    }

    fn count(&self, i: usize) -> usize {
        self.schedule().map_or(0, |s| s.count(i))
    }

    fn event(&self, i: usize, k: usize) -> Event {
        self.schedule().map_or(NO_EVENT, |s| s.event(i, k))
    }
}
