// The items of a chart text.
#![tactic(auto)]

mod counting;
mod items;
mod known;
mod parser;
mod parsing;
mod parts;
mod repeats;
mod size;
mod surveying;
mod tally;
#[cfg(test)]
mod tests;

pub use parser::Parser;
pub use parts::{Item, Stage};
pub use size::Size;
pub use surveying::survey;
