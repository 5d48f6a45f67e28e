// The lines of a chart's listing, in lent buffers.
#![tactic(auto)]

mod events;
mod headings;
mod line;
mod listing;
mod naming;
mod parts;
mod refusals;
mod rows;
mod verdicts;

pub use listing::Listing;
pub use parts::{LINE_ROOM, ShortBuffer};
pub use refusals::refusal_line;
