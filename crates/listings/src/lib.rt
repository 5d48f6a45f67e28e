// The lines that tell of a chart, and the report on a whole chart.
#![tactic(auto)]

mod lines;
mod reports;
#[cfg(test)]
mod tests;

pub use lines::{chart_line, event_line, fault_line, kind_name, unreadable_line};
pub use reports::report;
