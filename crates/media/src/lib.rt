// What the bus does to messages.
#![tactic(auto)]

mod free;
mod line;
mod medium;
mod narrow;
#[cfg(test)]
mod tests;

pub use free::Free;
pub use line::Line;
pub use medium::Medium;
pub use narrow::Narrow;
