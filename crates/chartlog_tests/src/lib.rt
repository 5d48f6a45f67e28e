// Tests of logs by chart texts, by the lines that are printed.
#![tactic(auto)]

#[cfg(test)]
mod chart_texts;
#[cfg(test)]
mod parts;
#[cfg(test)]
mod refused;
#[cfg(test)]
mod shown;
#[cfg(test)]
mod waits;
