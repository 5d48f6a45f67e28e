// Tests of judge and of the check of a log on chart texts.
#![tactic(auto)]

#[cfg(test)]
mod checked;
#[cfg(test)]
mod judgements;
#[cfg(test)]
mod ring_rows;
