ghost use Rattle.runs.specs.Latests.{LatestAnswers};
ghost use Rattle.runs.specs.Runs.{lists_of, TellsAfter};

use crate::parts::Refusal;
use crate::run::Run;
use media::Medium;
use rules::Held;

impl<M: Medium> Run<M> {
    // The latest place of event k of instance i, counted from 1 over the whole order.
    pub fn latest(&self, i: usize, k: usize) -> Result<usize, Refusal>
        ensures { TellsAfter self.now (λ h. LatestAnswers (M.carries self.now.medium) (lists_of self.now) h i k) result }
    {
        self.check()?;
        if i >= self.board.width() {
            return Err(Refusal::NoInstance);
        }
        if k >= self.board.count(i) {
            return Err(Refusal::NoEvent);
        }
        if k < self.board.position(i) {
            return Err(Refusal::HasRun);
        }
        let mut end = self.board;
        let held = Held {
            instance: i,
            event: k,
        };
        let made = end.drive_to_end(&self.medium, Some(held)).len();
        let _ = end.drive_to_end(&self.medium, None);
        match end.lowest_unfinished() {
            None => Ok(self.board.made() + made + 1),
            Some(_) => Err(Refusal::NoFullOrder),
        }
    }
}
