ghost use Rattle.logs.specs.declared.parts.Waiting.{Waiting};
ghost use Rattle.std.specs.Prelude.{◌≡◌, [], IfOk};
ghost use Rattle.runs.specs.Runs.{fault_of, lists_of, medium_of, StandsAfter};
ghost use Rattle.logs.specs.Carried.{HasTaken};
ghost use Rattle.logs.specs.Heads.{TakesHead, HeadAnswers};

use crate::parts::{Cause, Following, Refusal, Waiting};
use crate::reading::read_one;
use crate::taking::fits;
use media::Medium;
use records::{Head, Record};
use runs::Run;

impl Waiting {
    // A new follower: all of them are the same.
    pub fn new() -> Waiting
        ensures { (other : Waiting) → result ≡ other }
    {
        Waiting {}
    }

    // Ends the follower, which has taken no record.
    pub fn leave(self) -> usize
        ensures { result ≡ 0 }
    {
        let Waiting {} = self;
        0
    }

    // A refusal of the record that it waits for.
    pub(crate) fn refuse(self, cause: Cause) -> (Waiting, Refusal)
        ensures { result ≡ (self, Refusal.Record 0 cause) }
    {
        (self, Refusal::Record(0, cause))
    }

    // Takes a head.
    pub(crate) fn take_head<M: Medium>(
        self,
        run: &Run<M>,
        head: Head,
    ) -> Result<Following, (Waiting, Refusal)>
        ensures { TakesHead (lists_of run.now) self head result }
    {
        if !fits(run, head) {
            return Err(self.refuse(Cause::OtherChart));
        }
        let Waiting {} = self;
        Ok(Following {
            index: 1,
            entries: 0,
        })
    }

    // Takes the head of a log, of a chart of the run's size.
    pub fn head<M: Medium>(
        self,
        run: &Run<M>,
        bytes: &[u8],
    ) -> Result<Following, (Waiting, Refusal)>
        ensures answers { HeadAnswers (fault_of run.now) (lists_of run.now) self bytes.now result }
        ensures carries { StandsAfter run.now [] → IfOk result (λ f. HasTaken (M.carries (medium_of run.now)) run.now [] f) }
    {
        if let Some(fault) = run.fault() {
            return Err((self, Refusal::Spoiled(fault)));
        }
        match read_one(bytes) {
            Ok(Record::Head(head)) => self.take_head(run, head),
            Ok(_) => Err(self.refuse(Cause::WrongRecord)),
            Err(cause) => Err(self.refuse(cause)),
        }
    }
}
