// Judge and the check of a log, for C: include/lonukepi.h declares them.
#![tactic(auto)]

ghost use Rattle.verdicts.specs.Judging.{JudgesText};
ghost use Rattle.verdicts.specs.Checking.{ChecksLog};
ghost use Rattle.verdicts.specs.Told.{TellsJudgement, TellsLog};

use verdicts::{Judgement, LogAnswer, check_log_text, judge_text};

// What becomes of a new run of the chart that a text writes.
#[unsafe(no_mangle)]
pub extern "C" fn lonukepi_judge(text: &[u8]) -> Judgement
    ensures judges { JudgesText text.now result }
    ensures tells { TellsJudgement text.now result }
{
    judge_text(text)
}

// What a log of the chart is that a text writes.
#[unsafe(no_mangle)]
pub extern "C" fn lonukepi_check_log(text: &[u8], log: &[u8]) -> LogAnswer
    ensures checks { ChecksLog text.now log.now result }
    ensures tells { TellsLog text.now log.now result }
{
    check_log_text(text, log)
}
