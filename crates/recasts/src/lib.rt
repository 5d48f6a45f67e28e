// Charts with their instances renamed.
#![tactic(auto)]

mod recast;
mod renaming;
mod turn;

pub use recast::Recast;
