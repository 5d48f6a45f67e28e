ghost use Rattle.std.specs.Prelude.{◌≡◌};
ghost use Rattle.joining.specs.After.{after_trouble, after_lists, AfterKeeps, AfterRegroups};
ghost use Rattle.joining.proofs.Afters.{after_judged};

use crate::moving::raised;
use crate::weighing::{limited, weigh};
use charts::{Chart, Event, Fault, Layer, NO_EVENT, Summary};

// Each instance has the events of the first chart, then those of the second.
// Not one type with `Beside`: width, place and moving differ, and not by a constant; a trait that gave them would owe the laws of both, and read worse.
#[derive(Drop)]
pub struct After<A, B> {
    first: A,
    second: B,
}

impl<A: Chart, B: Chart> After<A, B> {
    pub fn new(first: A, second: B) -> After<A, B>
        ensures { result ≡ record { first = first; second = second } }
    {
        After { first, second }
    }

    // The two charts again. Where one of them is empty, the other has the fault and the lists of the join.
    pub fn into_parts(self) -> (A, B)
        ensures parts { (result.0 ≡ self.first) × (result.1 ≡ self.second) }
        ensures keeps { AfterKeeps (A.Chart.trouble result.0) (B.Chart.trouble result.1) (A.Chart.lists result.0) (B.Chart.lists result.1) }
    {
        let After { first, second } = self;
        (first, second)
    }
}

impl<A: Chart, B: Chart, C: Chart> After<After<A, B>, C> {
    // The same three charts, the last two joined first: spoiled together, or with the same lists.
    pub fn regroup(self) -> After<A, After<B, C>>
        ensures parts { result ≡ record { first = self.first.first; second = record { first = self.first.second; second = self.second } } }
        ensures same { AfterRegroups (A.Chart.trouble result.first) (B.Chart.trouble result.second.first) (C.Chart.trouble result.second.second) (A.Chart.lists result.first) (B.Chart.lists result.second.first) (C.Chart.lists result.second.second) }
    {
        let After {
            first: pair,
            second: last,
        } = self;
        let After { first, second } = pair;
        After {
            first,
            second: After {
                first: second,
                second: last,
            },
        }
    }
}

impl<A: Chart, B: Chart> Chart for After<A, B> {
    ghost lists = { λ j. after_lists (A.Chart.trouble j.first) (B.Chart.trouble j.second) (A.Chart.lists j.first) (B.Chart.lists j.second) };

    ghost trouble = { λ j. after_trouble (A.Chart.trouble j.first) (B.Chart.trouble j.second) (A.Chart.lists j.first) (B.Chart.lists j.second) };

    ghost sound = { λ j. after_judged (A.Chart.trouble j.first) (B.Chart.trouble j.second) (A.Chart.lists j.first) (B.Chart.lists j.second) (A.Chart.sound j.first) (B.Chart.sound j.second) };

    #[tactic(auto, using(crate::proofs::Following::after_summed))]
    fn summary(&self) -> Result<Summary, Fault> {
        let (first, second) = weigh(&self.first, &self.second)?;
        limited(
            Layer::After,
            Summary {
                width: first.width.max(second.width),
                events: first.events + second.events,
                span: first.span + second.span,
            },
        )
    }

    #[tactic(auto, using(crate::proofs::Following::after_counted))]
    fn count(&self, i: usize) -> usize {
        if self.fault().is_some() {
            return 0;
        }
        self.first.count(i) + self.second.count(i)
    }

    #[tactic(auto, using(crate::proofs::Following::after_goes_on))]
    fn event(&self, i: usize, k: usize) -> Event {
        if self.fault().is_some() {
            return NO_EVENT;
        }
        let before = self.first.count(i);
        if k < before {
            return self.first.event(i, k);
        }
        raised(self.second.event(i, k - before), self.first.span())
    }
}
