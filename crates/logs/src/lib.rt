// Logs of panels: the follower, which takes a log record by record, and the check of a whole log.
#![tactic(auto)]

mod checking;
mod closed;
mod following;
mod parts;
mod reading;
mod stages;
mod taking;
mod waiting;

pub use checking::check_log;
pub use parts::{Cause, Closed, Following, Refusal, Verdict, Waiting};
