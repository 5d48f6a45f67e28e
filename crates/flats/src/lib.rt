// Charts that own their events: copies of any chart, made at run time.
#![tactic(auto)]

mod columns;
mod copies;
mod flat;

pub use flat::Flat;
