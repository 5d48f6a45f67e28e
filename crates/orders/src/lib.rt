// What may follow what: histories, orders, waits, and why one drive decides them all. Definitions and lemmas, in specs/ and proofs/.
#![tactic(auto)]

mod ring;
mod theorems;

pub use ring::a_stuck_end_has_one_ring;
pub use theorems::{
    a_blocked_drive_finds_the_latest_place, an_instance_has_one_state, every_order_ends_alike,
    one_drive_decides, what_may_run_stays_possible,
};
