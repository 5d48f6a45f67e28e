// What a message sequence chart is: its events, its faults and the interface that every chart has.
#![tactic(auto)]

mod chart;
mod faults;
mod kinds;
mod parts;
mod peers;

pub use chart::Chart;
pub use faults::{Fault, Layer, Rule};
pub use kinds::{Kind, UnknownKind};
pub use parts::{Event, MOST_EVENTS, MOST_INSTANCES, MOST_NUMBER, NO_EVENT, Summary};
pub use peers::Peer;
