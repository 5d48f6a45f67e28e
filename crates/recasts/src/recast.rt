ghost use Rattle.std.specs.Prelude.{◌≡◌, [], map, None, IfSome, MatchOption, ◌≢◌};
ghost use Rattle.charts.specs.Lists.{column};
ghost use Rattle.joining.specs.Moves.{moved};
ghost use Rattle.joining.specs.Recast.{to, recast_trouble, recast_lists, Undoes, Exactly};
ghost use Rattle.joining.proofs.Recasts.{recast_judged};
ghost use Rattle.recasts.specs.NamesBack.{NamesBack};

use crate::renaming::renamed;
use crate::turn::Turn;
use charts::{Chart, Event, Fault, Layer, NO_EVENT, Rule, Summary};

// A chart whose instance i becomes the one that a table names.
#[derive(Drop)]
pub struct Recast<A> {
    chart: A,
    turn: Turn,
}

impl<A: Chart> Recast<A> {
    pub fn new(chart: A, names: [u8; 32]) -> Recast<A>
        ensures parts { (result.chart ≡ chart) × (result.turn.to ≡ names) }
    {
        Recast {
            chart,
            turn: Turn::new(names),
        }
    }

    // The instance that becomes i, where there is an instance i.
    fn source(&self, i: usize) -> Option<usize>
        ensures { let L = A.Chart.lists self.now.chart in let t = self.now.turn.to in let es = column (recast_lists (A.Chart.trouble self.now.chart) L t) i in
            MatchOption result (es ≡ []) (λ j. es ≡ map (moved (to t) 0) (column L j)) }
    {
        match self.summary() {
            Ok(size) if i < size.width => self.turn.first(i),
            _ => None,
        }
    }

    // The names that recast the chart back, where the chart is not spoiled and the names permute its instances; 32 for a name that no instance has.
    pub fn inverse(&self) -> Option<[u8; 32]>
        ensures undoes { MatchOption result (recast_trouble (A.Chart.trouble self.now.chart) (A.Chart.lists self.now.chart) self.now.turn.to ≢ None) (λ b. Undoes (A.Chart.lists self.now.chart) self.now.turn.to b) }
        ensures names { IfSome result (λ b. NamesBack self.now.turn.to b) }
        ensures exact { Exactly (A.Chart.trouble self.now.chart) (A.Chart.lists self.now.chart) self.now.turn.to }
    {
        match self.fault() {
            None => Some(self.turn.inverse()),
            Some(_) => None,
        }
    }
}

impl<A: Chart> Chart for Recast<A> {
    ghost lists = { λ j. recast_lists (A.Chart.trouble j.chart) (A.Chart.lists j.chart) j.turn.to };

    ghost trouble = { λ j. recast_trouble (A.Chart.trouble j.chart) (A.Chart.lists j.chart) j.turn.to };

    ghost sound = { λ j. recast_judged (A.Chart.trouble j.chart) (A.Chart.lists j.chart) j.turn.to (A.Chart.sound j.chart) j.turn.names };

    fn summary(&self) -> Result<Summary, Fault> {
        let size = self.chart.summary()?;
        if self.turn.permutes(size.width) {
            return Ok(size);
        }
        Err(Fault::of_whole(Layer::Recast, Rule::Permutation))
    }

    fn count(&self, i: usize) -> usize {
        self.source(i).map_or(0, |j| self.chart.count(j))
    }

    fn event(&self, i: usize, k: usize) -> Event {
        let Some(j) = self.source(i) else {
            return NO_EVENT;
        };
        if k >= self.chart.count(j) {
            return NO_EVENT;
        }
        renamed(self.chart.event(j, k), &self.turn.to)
    }
}
