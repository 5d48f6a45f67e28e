ghost use Rattle.std.specs.Prelude.{◌≡◌, None, [], List};
ghost use Rattle.runs.specs.Runs.{fault_of, lists_of, medium_of, StandsAfter};
ghost use Rattle.media.specs.Media.{free};
ghost use Rattle.logs.specs.AnnexB.{AsAnnexB};
ghost use Rattle.logs.specs.Logs.{AfterEnd, LogAnswered, LogAnswers};

use crate::parts::{Cause, Closed, Refusal, Verdict, Waiting};
use crate::stages::Stage;
use charts::Chart;
use media::Medium;
use records::Record;
use runs::Run;

impl Closed {
    // The verdict on a log, if nothing stands after its end.
    fn finish(self, verdict: Verdict, rest: &[u8]) -> Result<Verdict, Refusal>
        ensures { AfterEnd verdict self.index rest.now result }
    {
        let Closed { index } = self;
        if rest.is_empty() {
            return Ok(verdict);
        }
        match Record::read(rest) {
            Ok(_) => Err(Refusal::Record(index, Cause::WrongRecord)),
            Err(flaw) => Err(Refusal::Record(index, Cause::from(flaw))),
        }
    }
}

// Follows a log on a new run.
fn follow<M: Medium>(run: &mut Run<M>, log: &[u8]) -> Result<Verdict, Refusal>
    requires sound { fault_of run.old ≡ None }
    requires new { StandsAfter run.old [] }
    ensures answers { LogAnswered (M.carries (medium_of run.old)) (lists_of run.old) log.now result }
    ensures medium { medium_of run.new ≡ medium_of run.old }
{
    let mut stage = Stage::Waiting(Waiting::new());
    let mut rest = log;
    'records: loop {
        let (record, length) = match Record::read(rest) {
            Ok(read) => read,
            Err(flaw) => return Err(stage.refuse(Cause::from(flaw))),
        };
        rest = &rest[length..];
        stage = match (stage, record) {
            (Stage::Waiting(follower), Record::Head(head)) => {
                Stage::Following(follower.take_head(run, head)?)
            }
            (Stage::Following(follower), Record::Entry(entry)) => {
                Stage::Following(follower.take_entry(run, entry)?)
            }
            (Stage::Following(follower), Record::End(end)) => {
                let (closed, verdict) = follower.take_end(run, end)?;
                return closed.finish(verdict, rest);
            }
            (Stage::Waiting(follower), _) => {
                return Err(Refusal::from(follower.refuse(Cause::WrongRecord)));
            }
            (Stage::Following(follower), Record::Head(_)) => {
                return Err(Refusal::from(follower.refuse(Cause::WrongRecord)));
            }
        };
    }
}

// Follows a log from a new run on, and says whether it is full; hands the medium back.
pub fn check_log<C: Chart, M: Medium>(
    chart: &C,
    medium: M,
    log: &[u8],
) -> (Result<Verdict, Refusal>, M)
    ensures answers { LogAnswers (C.Chart.trouble chart.now) (M.Medium.carries medium) (C.Chart.lists chart.now) log.now result.0 }
    ensures annex { C.Chart.trouble chart.now ≡ None → M.Medium.carries medium ≡ free → AsAnnexB (C.Chart.lists chart.now) log.now result.0 }
    ensures back { result.1 ≡ medium }
{
    let mut run = Run::new(chart, medium);
    let answer = match run.fault() {
        Some(fault) => Err(Refusal::Spoiled(fault)),
        None => follow(&mut run, log),
    };
    (answer, run.into_medium())
}
