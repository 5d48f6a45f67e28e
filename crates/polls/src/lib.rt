// A panel that polls its keypads: a chart that is computed, of any size up to its limits.
#![tactic(auto)]

mod poll;
mod schedule;
#[cfg(test)]
mod tests;

pub use poll::{MOST_KEYPADS, MOST_ROUNDS, Poll};
