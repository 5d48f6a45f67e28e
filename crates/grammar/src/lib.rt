// The grammar of chart texts, as a relation between a text and its chart, and two theorems on it.
#![tactic(auto)]

mod theorems;

pub use theorems::{a_text_writes_what_is_read_of_it, every_chart_has_a_text};
