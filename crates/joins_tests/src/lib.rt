// Tests of joined and recast charts.
#![tactic(auto)]

#[cfg(test)]
mod cases;
#[cfg(test)]
mod joined;
#[cfg(test)]
mod recasting;
