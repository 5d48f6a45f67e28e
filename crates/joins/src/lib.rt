// Charts joined from charts. Nothing is copied: a join asks its parts.
#![tactic(auto)]

mod after;
mod beside;
mod moving;
mod weighing;

pub use after::After;
pub use beside::Beside;
