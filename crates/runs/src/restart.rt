ghost use Rattle.std.specs.Prelude.{◌≡◌, Ok};
ghost use Rattle.runs.specs.Runs.{fault_of, positions, KeepsChart};
ghost use Rattle.runs.specs.Moves.{RestartMoves};
ghost use Rattle.runs.specs.Tells.{Tells, RefusalKeeps};

use crate::parts::Refusal;
use crate::run::Run;
use media::Medium;

impl<M: Medium> Run<M> {
    // Sets every position to 0, as when new.
    pub fn restart(&mut self) -> Result<(), Refusal>
        ensures tells { Tells (fault_of self.old) (λ a. a ≡ Ok tt) result }
        ensures keeps { KeepsChart self.old self.new }
        ensures moves { RestartMoves (positions self.old) (positions self.new) result }
        ensures refused { RefusalKeeps result self.old self.new }
    {
        self.check()?;
        self.board.restart();
        Ok(())
    }
}
