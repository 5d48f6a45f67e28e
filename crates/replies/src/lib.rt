// The lines that tell what the calls of a run answered and wrote, what logs are, and why a chart text is refused.
#![tactic(auto)]

mod answers;
mod chart_texts;
mod lines;
mod refusals;
#[cfg(test)]
mod tests;

pub use chart_texts::text_refusal_line;
pub use lines::{reply_line, reply_lines};
