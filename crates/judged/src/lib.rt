// A chart text judged: the lines of its listing and of the verdict on a new run.
#![tactic(auto)]

mod adding;
mod judging;
mod listed;
mod steps;

pub use judging::{fault_lines, judged_lines};
pub use steps::add_steps;
