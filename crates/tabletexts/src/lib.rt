// The text form of a chart's table.
#![tactic(auto)]

mod parts;
mod reading;
#[cfg(test)]
mod tests;

pub use parts::{TableText, Unread};
pub use reading::{cut, read, read_byte, read_event, read_lengths, read_number};
