// The records of a log: a head, an event that has run, an end; and their bytes.
#![tactic(auto)]

mod parts;
mod reading;
#[cfg(test)]
mod tests;
mod writing;

pub use parts::{End, Entry, Flaw, Head, Record};
