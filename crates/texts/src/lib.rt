// The reader of chart texts: a chart's tables, filled from its text.
#![tactic(auto)]

mod directory;
mod filling;
mod listing;
mod noting;
mod reader;
mod reading;
mod resolving;
mod roomy;
mod rows;
mod soundness;
mod starts;

pub use reader::read;
pub use reading::Reading;
pub use roomy::TextTables;
pub use rows::{NO_NAME, Name};
