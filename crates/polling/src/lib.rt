// The lists of a panel that polls its keypads, and why they are sound: definitions and lemmas, in specs/ and proofs/.
#![tactic(auto)]
