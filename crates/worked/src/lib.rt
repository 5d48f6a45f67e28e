// Small charts worked through: their full orders, latest places and rings, computed.
#![tactic(auto)]

mod small;

pub use small::small_charts_behave;
