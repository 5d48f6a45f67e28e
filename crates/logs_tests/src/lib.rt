// Tests of logs.
#![tactic(auto)]

#[cfg(test)]
mod cases;
#[cfg(test)]
mod every_order;
#[cfg(test)]
mod followed;
#[cfg(test)]
mod whole;
