// What may run at the positions of a run, one step, and the drive.
#![tactic(auto)]

mod advance;
mod asking;
mod board;
mod driving;
mod ending;
mod held;
mod instances;
mod may;
mod passing;
mod row;
mod rows;
mod starting;
mod stepping;
mod steps;

pub use board::Board;
pub use held::Held;
pub use row::Row;
pub use rows::Rows;
pub use steps::Steps;
