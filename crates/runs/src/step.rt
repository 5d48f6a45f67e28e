ghost use Rattle.runs.specs.Steps.{StepAnswers};
ghost use Rattle.runs.specs.Moves.{StepMoves};
ghost use Rattle.runs.specs.Runs.{lists_of, positions, KeepsChart, TellsAfter};
ghost use Rattle.runs.specs.Tells.{RefusalKeeps};

use crate::parts::Refusal;
use crate::run::Run;
use charts::Event;
use media::Medium;

impl<M: Medium> Run<M> {
    // Runs the next event of instance i and answers it.
    pub fn step(&mut self, i: usize) -> Result<Event, Refusal>
        ensures tells { TellsAfter self.old (λ h. StepAnswers (M.carries self.old.medium) (lists_of self.old) h i) result }
        ensures keeps { KeepsChart self.old self.new }
        ensures moves { StepMoves (positions self.old) (positions self.new) i result }
        ensures refused { RefusalKeeps result self.old self.new }
    {
        self.check()?;
        if i >= self.board.width() {
            return Err(Refusal::NoInstance);
        }
        match self.board.next(i) {
            None => Err(Refusal::NothingLeft),
            Some(slot) => {
                if self.board.may(&self.medium, i) {
                    self.board.advance(i);
                    Ok(slot.event)
                } else {
                    Err(Refusal::MustWait(self.board.waits_for(i)))
                }
            }
        }
    }
}
