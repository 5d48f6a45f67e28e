// The walk along the waits of a run, and the ring that it comes to.
#![tactic(auto)]

mod parts;
mod ring;
mod walk;

pub use parts::Ring;
