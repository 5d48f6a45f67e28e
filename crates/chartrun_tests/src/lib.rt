// Tests of chart texts, by the lines that are printed.
#![tactic(auto)]

#[cfg(test)]
mod limits;
#[cfg(test)]
mod nine;
#[cfg(test)]
mod refused;
#[cfg(test)]
mod shown;
#[cfg(test)]
mod verdicts;
