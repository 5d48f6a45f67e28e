use charts::Fault;

// Why a call is refused.
#[derive(Clone, Copy, PartialEq, Eq, Debug)]
pub enum Refusal {
    // the chart has this fault
    Spoiled(Fault),
    NoInstance,
    // the instance has finished
    NothingLeft,
    // the instance's next event must wait, for this instance
    MustWait(usize),
    ShortBuffer,
    NoEvent,
    HasRun,
    NoFullOrder,
}

// How a drive ended.
#[derive(Clone, Copy, PartialEq, Eq, Debug)]
pub enum Ending {
    // every event has run
    Finished,
    // the steps asked for were made
    Count,
    // no step was left
    Stuck,
}

// What a drive made: so many steps, and how it ended.
#[derive(Clone, Copy, PartialEq, Eq, Debug)]
pub struct Drove {
    pub made: usize,
    pub ending: Ending,
}

// What is to become of a run, with the number of bytes written.
#[derive(Clone, Copy, PartialEq, Eq, Debug)]
pub enum Verdict {
    // it runs to its end: the rest of the order was written
    Runs(usize),
    // it gets stuck: the ring was written
    Stuck(usize),
}
