// When a table of lengths and events is a sound chart: definitions and lemmas, in specs/ and proofs/.
#![tactic(auto)]
