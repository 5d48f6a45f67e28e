// What judge and the check of a log say of a chart text, in plain numbers.
#![tactic(auto)]

mod answers;
mod charted;
mod checking;
mod judging;
mod members;
mod reading;

pub use answers::{
    FULL, Judgement, LOG_REFUSED, LogAnswer, Member, PART, REFUSED, RUNS, STUCK, TEXT_REFUSED,
};
pub use checking::check_log_text;
pub use judging::judge_text;
