// A theorem about runs, as the promise of a function.
ghost use Rattle.std.specs.Prelude.{ℕ, List};
ghost use Rattle.runs.specs.Runs.{StandsAfter};

use crate::run::Run;

// Every run stands after some history.
pub fn a_run_stands_after_a_history<M>(run: &Run<M>)
    ensures { (h : List ℕ) × StandsAfter run.now h }
{}
