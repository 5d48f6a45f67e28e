// A run's own copy of a chart, with what is fixed of each event worked out beforehand. It needs no memory but its own.
#![tactic(auto)]

mod calls;
mod copying;
mod grid;
mod indexed;
mod linker;
mod linking;
mod noting;
mod parts;
mod places;
mod ranking;

pub use indexed::Indexed;
pub use parts::{Column, NO_SLOT, Slot};
