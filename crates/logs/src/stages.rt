ghost use Rattle.std.specs.Prelude.{◌≡◌};
ghost use Rattle.logs.specs.Stages.{index_of};

use crate::parts::{Cause, Following, Refusal, Waiting};

// Where the follower of a whole log is, until it takes the end.
pub(crate) enum Stage {
    Waiting(Waiting),
    Following(Following),
}

// What a whole log is refused by: its follower has no further use.
impl From<(Waiting, Refusal)> for Refusal {
    ghost from_gives = { λ refused refusal. refusal ≡ refused.1 };

    fn from((follower, refusal): (Waiting, Refusal)) -> Refusal {
        follower.leave();
        refusal
    }
}

impl From<(Following, Refusal)> for Refusal {
    ghost from_gives = { λ refused refusal. refusal ≡ refused.1 };

    fn from((follower, refusal): (Following, Refusal)) -> Refusal {
        follower.leave();
        refusal
    }
}

impl Stage {
    // Refuses the log at the next record.
    pub(crate) fn refuse(self, cause: Cause) -> Refusal
        ensures { result ≡ Refusal.Record (index_of self) cause }
    {
        match self {
            Stage::Waiting(follower) => Refusal::from(follower.refuse(cause)),
            Stage::Following(follower) => Refusal::from(follower.refuse(cause)),
        }
    }
}
