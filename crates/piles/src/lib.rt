// Stacks of charts, made at run time by commands.
#![tactic(auto)]

mod commands;
mod pile;
mod reading;

pub use pile::Pile;
pub use reading::read_pile;
