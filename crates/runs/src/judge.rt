ghost use Rattle.std.specs.Prelude.{◌≡◌, ◌+◌, ◌≤◌, length};
ghost use Rattle.charts.specs.Lists.{size};
ghost use Rattle.rules.specs.Made.{steps_made};
ghost use Rattle.runs.specs.Runs.{lists_of, positions, TellsAfter};
ghost use Rattle.runs.specs.Drives.{Written};
ghost use Rattle.runs.specs.Rooms.{room_for};
ghost use Rattle.runs.specs.Verdicts.{JudgeAnswers};
ghost use Rattle.runs.specs.Tells.{RefusalKeeps};

use crate::parts::{Refusal, Verdict};
use crate::run::Run;
use media::Medium;
use rings::Ring;

// Writes the bytes at the start of the buffer.
fn put(bytes: &[u8], buffer: &mut [u8])
    requires { length bytes.now ≤ length buffer.old }
    ensures { Written bytes.now buffer.old buffer.new }
{
    buffer[0..bytes.len()].copy_from_slice(bytes);
}

impl<M: Medium> Run<M> {
    // How many events are left.
    fn left(&self) -> usize
        ensures { result + steps_made (lists_of self.now) (positions self.now) ≡ size (lists_of self.now) }
    {
        self.board.events() - self.board.made()
    }

    // Whether a buffer of this length takes every ring, and every event left.
    fn has_room(&self, length: usize) -> bool
        ensures { result ≡ room_for (lists_of self.now) (positions self.now) length }
    {
        length >= 32 && length >= self.left()
    }

    // Whether a full order exists: writes the rest of one, lowest first, or the ring of instances that wait for each other.
    pub fn judge(&self, buffer: &mut [u8]) -> Result<Verdict, Refusal>
        ensures tells { TellsAfter self.now (λ h a. JudgeAnswers (M.carries self.now.medium) (lists_of self.now) h buffer.old a buffer.new) result }
        ensures keeps { RefusalKeeps result buffer.old buffer.new }
    {
        self.check()?;
        if !self.has_room(buffer.len()) {
            return Err(Refusal::ShortBuffer);
        }
        let mut end = self.board;
        let steps = end.drive_to_end(&self.medium, None);
        match end.lowest_unfinished() {
            None => {
                put(steps.as_slice(), buffer);
                Ok(Verdict::Runs(steps.len()))
            }
            Some(_) => {
                let ring = Ring::of(&end);
                let members = ring.members();
                put(members, buffer);
                Ok(Verdict::Stuck(members.len()))
            }
        }
    }
}
