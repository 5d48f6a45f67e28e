ghost use Rattle.std.specs.Prelude.{◌≡◌};
ghost use Rattle.tabletexts.specs.declared.parts.Unread.TheVariants.{Memory};

use charts::Event;
use std::alloc::{AllocError, AllocFailed};

// What a table's text says.
#[derive(Drop)]
pub struct TableText {
    pub lengths: Vec<u16>,
    pub events: Vec<Event>,
}

// Why a text was not read.
#[derive(Clone, Copy, PartialEq, Eq, Debug)]
pub enum Unread {
    // the first line that cannot be read, counted from 1
    Line(usize),
    // want of memory
    Memory,
}

// Two conversions, since `?` takes one step, and the library's errors of memory have two types.
impl From<AllocError> for Unread {
    ghost from_gives = { λ _ r. r ≡ Memory };

    fn from(_e: AllocError) -> Unread {
        Unread::Memory
    }
}

impl<T: Drop> From<AllocFailed<T>> for Unread {
    ghost from_gives = { λ _ r. r ≡ Memory };

    fn from(_e: AllocFailed<T>) -> Unread {
        Unread::Memory
    }
}
