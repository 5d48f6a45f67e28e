// Tests of the index of names.
#![tactic(auto)]

#[cfg(test)]
mod cases;
#[cfg(test)]
mod full;
#[cfg(test)]
mod lookups;
