// Media that are chosen at run time.
#![tactic(auto)]

mod bus;
#[cfg(test)]
mod tests;

pub use bus::Bus;
