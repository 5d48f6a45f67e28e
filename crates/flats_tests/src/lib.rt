// Tests of owned copies of charts.
#![tactic(auto)]

#[cfg(test)]
mod cases;
#[cfg(test)]
mod copies;
