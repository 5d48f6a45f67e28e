// Tests of whole scripts, by the lines that are printed.
#![tactic(auto)]

#[cfg(test)]
mod chart_texts;
#[cfg(test)]
mod examples;
#[cfg(test)]
mod log_lines;
#[cfg(test)]
mod refused;
#[cfg(test)]
mod shown;
