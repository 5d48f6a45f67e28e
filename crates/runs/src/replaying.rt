ghost use Rattle.std.specs.Prelude.{◌≡◌, ℕ, List, []};
ghost use Rattle.runs.specs.Replays.{Replayed};

use crate::calls::Turn;
use crate::run::Run;
use crate::turns::take_turn;
use charts::Chart;
use media::Medium;

// Makes the calls one after another on a new run, notes each answer, and hands the medium back.
pub fn replay<C: Chart, M: Medium>(chart: &C, medium: M, turns: &mut [Turn]) -> M
    ensures promise { (g : List ℕ) × Replayed (C.Chart.trouble chart.now) (M.Medium.carries medium) (C.Chart.lists chart.now) [] turns.old turns.new g }
    ensures back { result ≡ medium }
{
    let mut run = Run::new(chart, medium);
    for turn in turns.iter_mut() {
        take_turn(&mut run, turn);
    }
    let Run { board: _, medium } = run;
    medium
}
