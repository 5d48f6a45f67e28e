ghost use Rattle.bench.specs.Rows.{ComesOut};

use crate::rows::Row;
use runs::Ending;

// What comes out of a row.
#[derive(Clone, Copy, Debug)]
pub enum Outcome {
    // a full order, made lowest first
    Runs(&'static [u8]),
    // no full order: the steps to the end, made lowest first, and the ring there
    Stuck {
        end: &'static [u8],
        ring: &'static [u8],
    },
    // the latest place of an event
    Place(usize),
    // the steps that a drive made, and how it ended
    Drove {
        steps: &'static [u8],
        ending: Ending,
    },
}

impl Row {
    // What comes out of the row, by the rules of its chart and its medium.
    pub fn outcome(self) -> Outcome
        ensures { ComesOut self result }
    {
        match self {
            Row::Empty => Outcome::Runs(&[]),
            Row::LateText => Outcome::Place(3),
            Row::LateTextTaken => Outcome::Place(4),
            Row::LateRing => Outcome::Place(3),
            Row::LateSound => Outcome::Place(5),
            Row::Cross => Outcome::Stuck {
                end: &[],
                ring: &[0, 1],
            },
            Row::OverFree => Outcome::Runs(&[0, 0, 1, 1]),
            Row::OverInLine => Outcome::Stuck {
                end: &[0, 0],
                ring: &[1],
            },
            Row::OverRoomForOne => Outcome::Stuck {
                end: &[0],
                ring: &[0, 1],
            },
            Row::OverRoomForTwo => Outcome::Runs(&[0, 0, 1, 1]),
            Row::HopNoRoom => Outcome::Stuck {
                end: &[],
                ring: &[0, 1],
            },
            Row::PollDriven => Outcome::Drove {
                steps: &[0, 1, 1, 0],
                ending: Ending::Finished,
            },
            Row::HopAfterHop => Outcome::Place(3),
            Row::HopBesideHop => Outcome::Place(3),
            Row::ToItself => Outcome::Runs(&[0, 0]),
        }
    }
}
