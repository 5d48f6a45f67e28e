// A follower of a log, rightly used. Programs that use it in another order are refused by their types: tools/refused.sh tries some.
#![tactic(auto)]

#[cfg(test)]
mod used;
