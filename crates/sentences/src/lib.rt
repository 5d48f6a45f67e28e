// The sentences of a chart text.
#![tactic(auto)]

mod events;
mod names;
mod parts;

pub use events::read_event;
pub use names::{close, expect_word, read_name, read_peer, read_word};
pub use parts::EventText;
