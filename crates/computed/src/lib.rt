// What may run, orders, their ends, full orders, waits, drives, rings and latest places as code can compute them, each with a tie that says that it is the relation.
#![tactic(auto)]

mod theorems;

pub use theorems::relations_on_orders_are_computed;
