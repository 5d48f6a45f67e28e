// The two events of a message, and where they stand.
#![tactic(auto)]

mod ends;
mod places;

pub use ends::End;
pub use places::MessagePlaces;
