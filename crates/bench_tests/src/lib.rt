// Tests of the rows of the bench, as they are built and run.
#![tactic(auto)]

#[cfg(test)]
mod played;
