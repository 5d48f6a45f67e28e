ghost use Rattle.std.specs.Prelude.{◌≡◌, Err, Result};
ghost use Rattle.charts.specs.declared.faults.Fault.{Fault};
ghost use Rattle.logs.specs.declared.parts.Refusal.{Refusal};
ghost use Rattle.logs.specs.declared.parts.Refusal.TheVariants.{Spoiled};
ghost use Rattle.logs.specs.declared.parts.Verdict.{Verdict};
ghost use Rattle.verdicts.specs.Kept.{lists_in};
ghost use Rattle.verdicts.specs.Checking.{Checked, ChecksLog, Says};
ghost use Rattle.verdicts.specs.Told.{TellsLog};

use crate::answers::LogAnswer;
use crate::charted::Charted;
use logs::{Refusal, Verdict, check_log};
use media::Free;

impl LogAnswer {
    // The answer in numbers, where the chart has no fault.
    fn of(answer: Result<Verdict, Refusal>) -> LogAnswer
        requires { (f : Fault) → answer ≡ Err (Spoiled f) → ⊥ }
        ensures { Says answer result }
    {
        match answer {
            Ok(Verdict::Full) => LogAnswer::full(),
            Ok(Verdict::Part) => LogAnswer::part(),
            Err(Refusal::Record(index, cause)) => LogAnswer::log_refused(index, cause),
            Err(Refusal::Spoiled(_)) => unreachable!(),
        }
    }
}

impl Charted {
    // What a log of the chart is, where messages may arrive in any order.
    fn check_log(&self, log: &[u8]) -> LogAnswer
        ensures { (r : Result Verdict Refusal) × Checked (lists_in self.now) log.now r result }
    {
        let (answer, _) = check_log(&self.table(), Free, log);
        LogAnswer::of(answer)
    }
}

// Reads a chart text and follows a log of its chart, where messages may arrive in any order: whether the log is full or a part; or why the text or the log is refused.
pub fn check_log_text(text: &[u8], log: &[u8]) -> LogAnswer
    ensures checks { ChecksLog text.now log.now result }
    ensures tells { TellsLog text.now log.now result }
{
    match Charted::of(text) {
        Ok(chart) => chart.check_log(log),
        Err(fault) => LogAnswer::text_refused(fault),
    }
}
