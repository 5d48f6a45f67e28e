// Runs of a chart over a medium: step, drive, restart, judge and latest.
#![tactic(auto)]

mod asking;
mod calls;
mod drive;
mod judge;
mod latest;
mod parts;
mod replaying;
mod restart;
mod run;
mod step;
mod theorems;
mod turns;

pub use calls::{Answer, Call, Turn};
pub use parts::{Drove, Ending, Refusal, Verdict};
pub use replaying::replay;
pub use run::Run;
pub use theorems::a_run_stands_after_a_history;
