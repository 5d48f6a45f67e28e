// Tests of scripts: their lines, their reading, and what their calls answer.
#![tactic(auto)]

#[cfg(test)]
mod played;
#[cfg(test)]
mod statements;
#[cfg(test)]
mod unreadable;
