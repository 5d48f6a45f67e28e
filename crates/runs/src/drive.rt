ghost use Rattle.std.specs.Prelude.{◌≡◌};
ghost use Rattle.runs.specs.Endings.{ending_of};
ghost use Rattle.runs.specs.Runs.{lists_of, positions, KeepsChart, TellsAfter};
ghost use Rattle.runs.specs.Moves.{DriveMoves};
ghost use Rattle.runs.specs.Drives.{DriveAnswers};
ghost use Rattle.runs.specs.Tells.{RefusalKeeps};

use crate::parts::{Drove, Ending, Refusal};
use crate::run::Run;
use media::Medium;

impl<M: Medium> Run<M> {
    // How a drive of n steps ended that made so many.
    fn ending(&self, made: usize, n: usize) -> Ending
        ensures { result ≡ ending_of (lists_of self.now) (positions self.now) made n }
    {
        match self.board.lowest_unfinished() {
            None => Ending::Finished,
            Some(_) => {
                if made == n {
                    Ending::Count
                } else {
                    Ending::Stuck
                }
            }
        }
    }

    // Makes the lowest-numbered step that can be made, n times or until none is left, and writes the instances.
    pub fn drive(&mut self, n: usize, buffer: &mut [u8]) -> Result<Drove, Refusal>
        ensures tells { TellsAfter self.old (λ h a. DriveAnswers (M.carries self.old.medium) (lists_of self.old) h n buffer.old a buffer.new) result }
        ensures keeps { KeepsChart self.old self.new }
        ensures moves { DriveMoves (positions self.old) (positions self.new) buffer.new result }
        ensures refused { RefusalKeeps result self.old self.new }
        ensures unwritten { RefusalKeeps result buffer.old buffer.new }
    {
        self.check()?;
        if buffer.len() < n {
            return Err(Refusal::ShortBuffer);
        }
        let made = self.board.drive(&self.medium, None, &mut buffer[0..n]);
        let ending = self.ending(made, n);
        Ok(Drove { made, ending })
    }
}
