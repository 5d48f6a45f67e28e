// The text form of a script: a pile of tables and chart texts, a medium, calls of a run, and logs.
#![tactic(auto)]

mod calls;
mod hex;
mod log_lines;
mod media_lines;
mod operands;
mod parts;
mod statements;

pub use hex::hex_bytes;
pub use parts::{MediumCommand, Statement};
pub use statements::read_statement;
