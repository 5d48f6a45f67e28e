// Tests of a run's own copies of charts.
#![tactic(auto)]

#[cfg(test)]
mod cases;
#[cfg(test)]
mod slots;
