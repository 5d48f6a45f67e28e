ghost use Rattle.std.specs.Prelude.{◌≡◌};
ghost use Rattle.plays.specs.Troubles.{unplayed};
ghost use Rattle.plays.specs.declared.parts.Unplayed.TheVariants.{Memory, Text};

use buses::Bus;
use flats::Flat;
use logs::{Refusal, Verdict};
use runs::Turn;
use std::alloc::{AllocError, AllocFailed};
use tabletexts::Unread;
use words::Fault;

// The bytes of a log, how many calls of the script stand before it, and what the log is once it was checked.
#[derive(Drop)]
pub struct Log {
    pub after: usize,
    pub bytes: Vec<u8>,
    pub answer: Option<Result<Verdict, Refusal>>,
}

// What a script asks for: calls of a run of this chart over this medium, and checks of logs.
#[derive(Drop)]
pub struct Script {
    pub chart: Flat,
    pub bus: Bus,
    pub turns: Vec<Turn>,
    pub logs: Vec<Log>,
}

// The calls and the logs of a script that was played, with their answers.
#[derive(Drop)]
pub struct Played {
    pub turns: Vec<Turn>,
    pub logs: Vec<Log>,
}

// The parts of a script, in their order.
#[derive(Clone, Copy)]
pub(crate) enum Part {
    Pile,
    Medium,
    Calls,
}

// Why a script was not played.
#[derive(Clone, Copy, PartialEq, Eq, Debug)]
pub enum Unplayed {
    // the first line that cannot be read, counted from 1
    Line(usize),
    // the fault of the first chart text that is refused
    Text(Fault),
    // want of memory
    Memory,
}

impl From<Unread> for Unplayed {
    ghost from_gives = { λ e r. r ≡ unplayed e };

    fn from(e: Unread) -> Unplayed {
        match e {
            Unread::Line(line) => Unplayed::Line(line),
            Unread::Memory => Unplayed::Memory,
        }
    }
}

impl From<Fault> for Unplayed {
    ghost from_gives = { λ e r. r ≡ Text e };

    fn from(e: Fault) -> Unplayed {
        Unplayed::Text(e)
    }
}

impl From<AllocError> for Unplayed {
    ghost from_gives = { λ _ r. r ≡ Memory };

    fn from(_e: AllocError) -> Unplayed {
        Unplayed::Memory
    }
}

impl<T: Drop> From<AllocFailed<T>> for Unplayed {
    ghost from_gives = { λ _ r. r ≡ Memory };

    fn from(_e: AllocFailed<T>) -> Unplayed {
        Unplayed::Memory
    }
}
