ghost use Rattle.std.specs.Prelude.{◌≡◌, ℕ, List, [], None};
ghost use Rattle.buses.specs.Carried.{carried};
ghost use Rattle.runs.specs.Replays.{Replayed};
ghost use Rattle.bench.specs.Plays.{Played};
ghost use Rattle.bench.specs.Rows.{lists_of, medium_of, call_of};

use crate::drawn::{cross, hop, late, over, to_itself};
use crate::rows::Row;
use buses::Bus;
use joins::{After, Beside};
use polls::Poll;
use runs::{Turn, replay};
use std::slice;
use tables::Table;

impl Row {
    // The medium of the row.
    fn bus(self) -> Bus
        ensures { carried result ≡ medium_of self }
    {
        match self {
            Row::OverInLine => Bus::line(),
            Row::OverRoomForOne => Bus::free().narrow(1),
            Row::OverRoomForTwo => Bus::free().narrow(2),
            Row::HopNoRoom => Bus::free().narrow(0),
            _ => Bus::free(),
        }
    }

    // Makes the calls on a new run of the row's chart over its medium, and notes each answer.
    pub fn replay(self, turns: &mut [Turn])
        ensures { (g : List ℕ) × Replayed None (medium_of self) (lists_of self) [] turns.old turns.new g }
    {
        match self {
            Row::Empty => {
                replay(&Table::new(&[], &[]), self.bus(), turns);
            }
            Row::LateText | Row::LateTextTaken | Row::LateRing | Row::LateSound => {
                replay(&Table::new(&[1, 2, 2], &late()), self.bus(), turns);
            }
            Row::Cross => {
                replay(&Table::new(&[2, 2], &cross()), self.bus(), turns);
            }
            Row::OverFree | Row::OverInLine | Row::OverRoomForOne | Row::OverRoomForTwo => {
                replay(&Table::new(&[2, 2], &over()), self.bus(), turns);
            }
            Row::HopNoRoom => {
                replay(&Table::new(&[1, 1], &hop()), self.bus(), turns);
            }
            Row::PollDriven => {
                replay(&Poll::new(1, 1), self.bus(), turns);
            }
            Row::HopAfterHop => {
                let events = hop();
                let hop = Table::new(&[1, 1], &events);
                replay(&After::new(hop, hop), self.bus(), turns);
            }
            Row::HopBesideHop => {
                let events = hop();
                let hop = Table::new(&[1, 1], &events);
                replay(&Beside::new(hop, hop), self.bus(), turns);
            }
            Row::ToItself => {
                replay(&Table::new(&[2], &to_itself()), self.bus(), turns);
            }
        }
    }

    // Makes the row's call on a new run, with this buffer.
    pub fn play(self, buffer: Vec<u8>) -> Turn
        ensures { Played self (record { call = call_of self; buffer = buffer; answer = None }) result }
    {
        let mut turn = Turn {
            call: self.call(),
            buffer,
            answer: None,
        };
        self.replay(slice::from_mut(&mut turn));
        turn
    }
}
