// What Z.120 Annex B makes of a chart, and why that is what this project calls its orders: definitions and lemmas, in specs/ and proofs/.
#![tactic(auto)]

mod theorems;

pub use theorems::{
    annex_b_allows_exactly_the_orders, rules_and_equations_agree, worked_examples_of_annex_b,
};
