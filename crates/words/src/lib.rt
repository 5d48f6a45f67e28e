// The words and semicolons of a chart text.
#![tactic(auto)]

mod classes;
mod faults;
mod parts;
mod pieces;
mod reader;

pub use classes::{Class, class_of};
pub use faults::{Cause, Fault};
pub use parts::{Piece, Word};
pub use reader::Reader;
