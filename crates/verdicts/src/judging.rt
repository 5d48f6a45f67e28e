ghost use Rattle.std.specs.Prelude.{◌≡◌, ◌≤◌, length};
ghost use Rattle.verdicts.specs.Answers.{stuck};
ghost use Rattle.verdicts.specs.Kept.{lists_in};
ghost use Rattle.verdicts.specs.Judging.{Judges, JudgesText};
ghost use Rattle.verdicts.specs.Told.{TellsJudgement};

use crate::answers::{Judgement, STUCK};
use crate::charted::Charted;
use crate::members::rows;
use charts::MOST_EVENTS;
use media::Free;
use runs::{Run, Verdict};
use texts::Name;

impl Judgement {
    // The chart gets stuck in this ring.
    fn stuck(ring: &[u8], names: &[Name]) -> Judgement
        requires { length ring.now ≤ 32 }
        ensures { result ≡ stuck names.now ring.now }
    {
        Judgement {
            word: STUCK,
            number: 0,
            byte: 0,
            count: ring.len(),
            ring: rows(ring, names),
        }
    }
}

impl Charted {
    // What judge says of a new run, where messages may arrive in any order.
    fn judge(&self) -> Judgement
        ensures { Judges (lists_in self.now) self.now.names result }
    {
        let mut order = [0; MOST_EVENTS];
        match Run::new(&self.table(), Free).judge(&mut order) {
            Ok(Verdict::Runs(_)) => Judgement::runs(),
            Ok(Verdict::Stuck(length)) => Judgement::stuck(&order[..length], &self.names),
            // The chart has no fault, and the buffer is as long as the longest order.
            Err(_) => unreachable!(),
        }
    }
}

// Reads a chart text and judges a new run of its chart, where messages may arrive in any order: whether it runs to its end, or gets stuck and in which ring; or why the text is refused.
pub fn judge_text(text: &[u8]) -> Judgement
    ensures judges { JudgesText text.now result }
    ensures tells { TellsJudgement text.now result }
{
    match Charted::of(text) {
        Ok(chart) => chart.judge(),
        Err(fault) => Judgement::refused(fault),
    }
}
