// The rows of the bench: what comes out of each by the rules alone, and on a run.
#![tactic(auto)]

mod drawn;
mod outcomes;
mod replays;
mod rows;

pub use outcomes::Outcome;
pub use rows::Row;
