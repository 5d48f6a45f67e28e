ghost use Rattle.std.specs.Prelude.{◌≡◌};
ghost use Rattle.joining.specs.Beside.{beside_trouble, beside_lists, BesideKeeps, BesideRegroups};
ghost use Rattle.joining.proofs.Besides.{beside_judged};

use crate::moving::shifted;
use crate::weighing::{limited, weigh};
use charts::{Chart, Event, Fault, Layer, NO_EVENT, Summary};

// The instances of the left chart, then those of the right one.
// Not one type with `After`: they differ in width, place and moving, and not by a constant.
#[derive(Drop)]
pub struct Beside<A, B> {
    left: A,
    right: B,
}

impl<A: Chart, B: Chart> Beside<A, B> {
    pub fn new(left: A, right: B) -> Beside<A, B>
        ensures { result ≡ record { left = left; right = right } }
    {
        Beside { left, right }
    }

    // The two charts again. Where one of them is empty, the other has the fault and the lists of the join.
    pub fn into_parts(self) -> (A, B)
        ensures parts { (result.0 ≡ self.left) × (result.1 ≡ self.right) }
        ensures keeps { BesideKeeps (A.Chart.trouble result.0) (B.Chart.trouble result.1) (A.Chart.lists result.0) (B.Chart.lists result.1) }
    {
        let Beside { left, right } = self;
        (left, right)
    }
}

impl<A: Chart, B: Chart, C: Chart> Beside<Beside<A, B>, C> {
    // The same three charts, the last two joined first: spoiled together, or with the same lists.
    pub fn regroup(self) -> Beside<A, Beside<B, C>>
        ensures parts { result ≡ record { left = self.left.left; right = record { left = self.left.right; right = self.right } } }
        ensures same { BesideRegroups (A.Chart.trouble result.left) (B.Chart.trouble result.right.left) (C.Chart.trouble result.right.right) (A.Chart.lists result.left) (B.Chart.lists result.right.left) (C.Chart.lists result.right.right) }
    {
        let Beside {
            left: pair,
            right: last,
        } = self;
        let Beside { left, right } = pair;
        Beside {
            left,
            right: Beside {
                left: right,
                right: last,
            },
        }
    }
}

impl<A: Chart, B: Chart> Chart for Beside<A, B> {
    ghost lists = { λ j. beside_lists (A.Chart.trouble j.left) (B.Chart.trouble j.right) (A.Chart.lists j.left) (B.Chart.lists j.right) };

    ghost trouble = { λ j. beside_trouble (A.Chart.trouble j.left) (B.Chart.trouble j.right) (A.Chart.lists j.left) (B.Chart.lists j.right) };

    ghost sound = { λ j. beside_judged (A.Chart.trouble j.left) (B.Chart.trouble j.right) (A.Chart.lists j.left) (B.Chart.lists j.right) (A.Chart.sound j.left) (B.Chart.sound j.right) };

    #[tactic(auto, using(crate::proofs::Adjoining::beside_summed))]
    fn summary(&self) -> Result<Summary, Fault> {
        let (left, right) = weigh(&self.left, &self.right)?;
        limited(
            Layer::Beside,
            Summary {
                width: left.width + right.width,
                events: left.events + right.events,
                span: left.span + right.span,
            },
        )
    }

    fn count(&self, i: usize) -> usize {
        if self.fault().is_some() {
            return 0;
        }
        let width = self.left.width();
        if i < width {
            return self.left.count(i);
        }
        self.right.count(i - width)
    }

    #[tactic(auto, using(crate::proofs::Adjoining::right_event))]
    fn event(&self, i: usize, k: usize) -> Event {
        if k >= self.count(i) {
            return NO_EVENT;
        }
        let width = self.left.width();
        if i < width {
            return self.left.event(i, k);
        }
        shifted(self.right.event(i - width, k), width, self.left.span())
    }
}
