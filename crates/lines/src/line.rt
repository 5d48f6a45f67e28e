ghost use Rattle.std.specs.Prelude.{◌≡◌, ◌+◌, ◌<◌, ◌≤◌, ◌++◌, length, codes, decimal, IfOk};
ghost use Rattle.listings.specs.Report.{line};
ghost use Rattle.lines.specs.Buffers.{WritesLine};

use crate::parts::{LINE_ROOM, ShortBuffer};
use arrayvec::ArrayVec;
use itoa::Buffer;
use std::marker::Model;

// A line as far as it is made, without its line feed.
#[derive(Drop)]
pub(crate) struct Line {
    bytes: ArrayVec<u8, LINE_ROOM>,
}

// A line is seen as its bytes.
impl Model for Line {
    ghost use Rattle.std.specs.Prelude.{ℕ, List};

    ghost Value = { List ℕ };

    ghost view = { λ line. line.bytes.items };
}

impl Line {
    // Of one word.
    pub(crate) fn of(word: &[u8]) -> Line
        requires { length word.now < 640 }
        ensures { result ≡ word.now }
    {
        let mut line = Line {
            bytes: ArrayVec::new(),
        };
        line.push(word);
        line
    }

    // Of one number.
    pub(crate) fn of_number(number: usize) -> Line
        ensures bytes { result ≡ decimal number }
        ensures few { length result ≤ 20 }
    {
        let mut digits = Buffer::new();
        Line::of(digits.format(number).as_bytes())
    }

    // Some bytes more.
    fn push(&mut self, bytes: &[u8])
        requires { length self.old + length bytes.now ≤ 640 }
        ensures { self.new ≡ self.old ++ bytes.now }
    {
        let Ok(()) = self.bytes.try_extend_from_slice(bytes) else {
            unreachable!();
        };
    }

    // One word more, after a space.
    pub(crate) fn word(&mut self, word: &[u8])
        requires { length self.old + length word.now < 640 }
        ensures bytes { self.new ≡ self.old ++ (codes " " ++ word.now) }
        ensures length { length self.new ≡ length self.old + (length word.now + 1) }
    {
        self.push(b" ");
        self.push(word);
    }

    // One number more, after a space.
    pub(crate) fn number(&mut self, number: usize)
        requires { length self.old < 620 }
        ensures bytes { self.new ≡ self.old ++ (codes " " ++ decimal number) }
        ensures length { length self.new ≤ length self.old + 21 }
    {
        let mut digits = Buffer::new();
        self.word(digits.format(number).as_bytes());
    }

    // Writes the line and its line feed at the start of the buffer, and answers how many bytes that is.
    pub(crate) fn write(mut self, buffer: &mut [u8]) -> Result<usize, ShortBuffer>
        requires { length self < 640 }
        ensures writes { WritesLine (line self) buffer.old result buffer.new }
        ensures fits { IfOk result (λ n. n ≤ 640) }
    {
        if buffer.len() < LINE_ROOM {
            return Err(ShortBuffer);
        }
        self.push(b"\n");
        let bytes = self.bytes.as_slice();
        buffer[..bytes.len()].copy_from_slice(bytes);
        Ok(bytes.len())
    }
}
