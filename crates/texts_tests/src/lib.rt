// Tests of the reader of chart texts.
#![tactic(auto)]

#[cfg(test)]
mod built;
#[cfg(test)]
mod cases;
#[cfg(test)]
mod filled;
#[cfg(test)]
mod limits;
#[cfg(test)]
mod refusals;
