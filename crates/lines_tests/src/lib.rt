// Tests of the lines of a chart's listing.
#![tactic(auto)]

#[cfg(test)]
mod buffers;
#[cfg(test)]
mod cases;
#[cfg(test)]
mod late;
#[cfg(test)]
mod longest;
#[cfg(test)]
mod made;
#[cfg(test)]
mod told;
