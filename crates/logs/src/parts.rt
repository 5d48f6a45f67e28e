ghost use Rattle.std.specs.Prelude.{◌≡◌};
ghost use Rattle.logs.specs.Causes.{number_of};

use charts::Fault;

// Why a record is refused.
#[derive(Clone, Copy, PartialEq, Eq, Debug)]
pub enum Cause {
    // its bytes end before it does
    CutShort,
    // no record, or not one that may stand there
    WrongRecord,
    // the head is of a chart of another size
    OtherChart,
    // not the next event of its instance
    NotNext,
    // the end counts another number of entries
    WrongCount,
    // the next event must wait, for this instance
    MustWait(usize),
}

impl From<Cause> for u8 {
    ghost from_gives = { λ cause number. number ≡ number_of cause };

    fn from(cause: Cause) -> u8 {
        match cause {
            Cause::CutShort => 51,
            Cause::WrongRecord => 52,
            Cause::OtherChart => 53,
            Cause::NotNext => 54,
            Cause::WrongCount => 55,
            Cause::MustWait(_) => 43,
        }
    }
}

// Why a log, or a record of it, is refused.
#[derive(Clone, Copy, PartialEq, Eq, Debug)]
pub enum Refusal {
    // the chart has this fault
    Spoiled(Fault),
    // the record of this index, counted from 0, for this cause
    Record(usize, Cause),
}

// What a log is that was taken to its end.
#[derive(Clone, Copy, PartialEq, Eq, Debug)]
pub enum Verdict {
    // all events of the chart have run
    Full,
    // some have not
    Part,
}

// A follower that waits for the head of a log.
pub struct Waiting {}

// A follower of the entries of a log: the index of the record that it takes next, and how many entries it has taken.
// The index stops at its greatest, and the entries at a number that no end record has.
pub struct Following {
    pub(crate) index: usize,
    pub(crate) entries: u32,
}

// A follower that has taken the end of a log: the index that a record after it would have.
pub struct Closed {
    pub(crate) index: usize,
}
