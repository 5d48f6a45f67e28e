// A log checked by a chart text: the lines of the entries that are taken, and of what the log is.
#![tactic(auto)]

mod leading;
mod listed;
mod logging;
mod taking;

pub use logging::logged_lines;
