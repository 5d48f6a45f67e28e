ghost use Rattle.std.specs.Prelude.{◌≡◌, ℕ};
ghost use Rattle.orders.specs.Driving.{moved_by};
ghost use Rattle.rules.specs.Drove.{most_steps, steps_in};
ghost use Rattle.rules.specs.Boards.{positions, drive_of};

use crate::board::Board;
use crate::held::Held;
use crate::steps::Steps;
use media::Medium;

impl Board {
    // Makes lowest-numbered steps until none is left but one by the event that is held.
    pub fn drive_to_end<M: Medium>(&mut self, medium: &M, held: Option<Held>) -> Steps
        ensures keeps { self.new.copy ≡ self.old.copy }
        ensures steps { steps_in result ≡ drive_of (M.carries medium.now) self.old held most_steps }
        ensures moves { (j : ℕ) → positions self.new j ≡ moved_by (positions self.old) (drive_of (M.carries medium.now) self.old held most_steps) j }
    {
        let mut bytes = [0u8; 4096];
        let count = self.drive(medium, held, &mut bytes);
        Steps { bytes, count }
    }
}
