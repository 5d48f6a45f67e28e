// Charts over tables of lengths and events.
#![tactic(auto)]

mod layout;
mod passes;
mod spans;
mod table;
mod verdicts;

pub use table::Table;
