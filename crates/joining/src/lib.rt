// The joins of charts as functions on lists, and why they keep charts sound: definitions and lemmas, in specs/ and proofs/.
#![tactic(auto)]
