ghost use Rattle.std.specs.Prelude.{◌≡◌, ℕ, [], Ok, Err};
ghost use Rattle.runs.specs.Runs.{fault_of, lists_of, StandsAfter};
ghost use Rattle.runs.specs.Faults.{checked_fault};

use crate::parts::Refusal;
use charts::Chart;
use copies::Indexed;
use media::Medium;
use rules::Board;

// A run of one chart over one medium, which it keeps for life.
#[derive(Drop)]
pub struct Run<M> {
    pub(crate) board: Board,
    pub(crate) medium: M,
}

impl<M: Medium> Run<M> {
    // A new run: no instance has stepped.
    pub fn new<C: Chart>(chart: &C, medium: M) -> Run<M>
        ensures lists { lists_of result ≡ C.Chart.lists chart.now }
        ensures fault { fault_of result ≡ C.Chart.trouble chart.now }
        ensures medium { result.medium ≡ medium }
        ensures stands { StandsAfter result [] }
    {
        Run {
            board: Board::new(Indexed::new(chart)),
            medium,
        }
    }

    // Refuses a spoiled chart by its fault.
    pub(crate) fn check(&self) -> Result<(), Refusal>
        ensures { result ≡ checked_fault (fault_of self.now) }
    {
        match self.board.fault() {
            None => Ok(()),
            Some(fault) => Err(Refusal::Spoiled(fault)),
        }
    }
}
