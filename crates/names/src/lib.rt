// An index of names, in memory of a fixed size.
#![tactic(auto)]

mod index;
mod parts;

pub use index::Names;
pub use parts::Refusal;
