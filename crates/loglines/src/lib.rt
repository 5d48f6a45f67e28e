// The line of what a log is.
#![tactic(auto)]

mod answers;

pub use answers::{Said, log_line};
