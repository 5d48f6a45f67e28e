// Tests of the reading of piles.
#![tactic(auto)]

#[cfg(test)]
mod lines;
#[cfg(test)]
mod piled;
