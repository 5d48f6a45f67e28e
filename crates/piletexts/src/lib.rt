// The text form of a pile of charts: its lines, and the command on each.
#![tactic(auto)]

mod blocks;
mod lines;
mod parts;
mod words;

pub use blocks::read_table;
pub use lines::Lines;
pub use parts::Command;
pub use words::{read_command, same};
