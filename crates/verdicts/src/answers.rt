ghost use Rattle.std.specs.Prelude.{◌≡◌};
ghost use Rattle.verdicts.specs.Answers.{runs, refused, text_refused, full, part, log_refused, instance_in};

use charts::MOST_INSTANCES;
use logs::Cause;
use words::Fault;

// An instance of a ring, and where its name stands in the text; zeros in a row that is not used.
#[repr(C)]
#[derive(Clone, Copy, PartialEq, Eq, Debug)]
pub struct Member {
    pub instance: usize,
    pub start: usize,
    pub length: usize,
}

// A row that is not used.
pub(crate) const NO_MEMBER: Member = Member {
    instance: 0,
    start: 0,
    length: 0,
};

// The words of a judgement: the chart runs to its end, it gets stuck in the ring, or the text is refused.
pub const RUNS: u32 = 1;

pub const STUCK: u32 = 2;

pub const REFUSED: u32 = 3;

// What judge says of a chart text; zeros in what the word does not speak of.
#[repr(C)]
#[derive(Clone, Copy, PartialEq, Eq, Debug)]
pub struct Judgement {
    pub word: u32,
    // the number of the refusal
    pub number: u32,
    // the byte of the text that is refused
    pub byte: usize,
    // how many instances the ring has
    pub count: usize,
    // the instances of the ring, each of which waits for the next, and the last for the first
    pub ring: [Member; 32],
}

impl Judgement {
    // The chart runs to its end.
    pub(crate) fn runs() -> Judgement
        ensures { result ≡ runs }
    {
        Judgement {
            word: RUNS,
            number: 0,
            byte: 0,
            count: 0,
            ring: [NO_MEMBER; MOST_INSTANCES],
        }
    }

    // The text is refused.
    pub(crate) fn refused(fault: Fault) -> Judgement
        ensures { result ≡ refused fault }
    {
        Judgement {
            word: REFUSED,
            number: u32::from(u8::from(fault.cause)),
            byte: fault.byte,
            count: 0,
            ring: [NO_MEMBER; MOST_INSTANCES],
        }
    }
}

// The words of an answer to a log: it is full, it is a part, the chart text is refused, or the log is.
pub const FULL: u32 = 1;

pub const PART: u32 = 2;

pub const TEXT_REFUSED: u32 = 3;

pub const LOG_REFUSED: u32 = 4;

// What the check of a log says; zeros in what the word does not speak of.
#[repr(C)]
#[derive(Clone, Copy, PartialEq, Eq, Debug)]
pub struct LogAnswer {
    pub word: u32,
    // the number of the refusal
    pub number: u32,
    // the byte of the text that is refused
    pub byte: usize,
    // the index of the log's record that is refused
    pub index: usize,
    // the instance that the record's event must wait for
    pub instance: usize,
}

impl LogAnswer {
    // The log is full.
    pub(crate) fn full() -> LogAnswer
        ensures { result ≡ full }
    {
        LogAnswer {
            word: FULL,
            number: 0,
            byte: 0,
            index: 0,
            instance: 0,
        }
    }

    // The log is a part.
    pub(crate) fn part() -> LogAnswer
        ensures { result ≡ part }
    {
        LogAnswer {
            word: PART,
            number: 0,
            byte: 0,
            index: 0,
            instance: 0,
        }
    }

    // The chart text is refused.
    pub(crate) fn text_refused(fault: Fault) -> LogAnswer
        ensures { result ≡ text_refused fault }
    {
        LogAnswer {
            word: TEXT_REFUSED,
            number: u32::from(u8::from(fault.cause)),
            byte: fault.byte,
            index: 0,
            instance: 0,
        }
    }

    // The log is refused at the record of this index.
    pub(crate) fn log_refused(index: usize, cause: Cause) -> LogAnswer
        ensures { result ≡ log_refused index cause }
    {
        LogAnswer {
            word: LOG_REFUSED,
            number: u32::from(u8::from(cause)),
            byte: 0,
            index,
            instance: waited_for(cause),
        }
    }
}

// The instance that is waited for, 0 where none is.
fn waited_for(cause: Cause) -> usize
    ensures { result ≡ instance_in cause }
{
    match cause {
        Cause::MustWait(instance) => instance,
        _ => 0,
    }
}
