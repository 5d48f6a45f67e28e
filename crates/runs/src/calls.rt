use crate::parts::{Drove, Refusal, Verdict};
use charts::Event;

// A call of a run, with its arguments.
#[derive(Clone, Copy, PartialEq, Eq, Debug)]
pub enum Call {
    Step(usize),
    Drive(usize),
    Restart,
    Judge,
    Latest(usize, usize),
}

// What a call answered.
#[derive(Clone, Copy, PartialEq, Eq, Debug)]
pub enum Answer {
    Stepped(Event),
    Driven(Drove),
    Restarted,
    Judged(Verdict),
    Place(usize),
    Refused(Refusal),
}

// One call with the buffer that it is handed, and its answer once it was made.
#[derive(Drop)]
pub struct Turn {
    pub call: Call,
    pub buffer: Vec<u8>,
    pub answer: Option<Answer>,
}
