ghost use Rattle.std.specs.Prelude.{◌≡◌, ◌+◌, ◌*◌, ℕ, List, ◌++◌, length, Ok};
ghost use Rattle.records.specs.Records.{written};
ghost use Rattle.records.specs.Reading.{Reads};

use crate::parts::{End, Entry, Flaw, Head, Record};

// The number that two bytes stand for.
fn word(low: u8, high: u8) -> u16
    ensures { result ≡ low + 256 * high }
{
    u16::from_le_bytes([low, high])
}

impl Record {
    // The record that the bytes begin with, and how many of them it takes.
    pub fn read(bytes: &[u8]) -> Result<(Record, usize), Flaw>
        ensures reads { Reads bytes.now result }
        ensures again { (r : Record) (rest : List ℕ) → bytes.now ≡ written r ++ rest → result ≡ Ok (r, length (written r)) }
    {
        let [a, b, c, d, rest @ ..] = bytes else {
            return Err(Flaw::CutShort);
        };
        let length = usize::from(word(*a, *b));
        let Some(payload) = rest.get(..length) else {
            return Err(Flaw::CutShort);
        };
        let record = match (word(*c, *d), payload) {
            (1, [width, low, high]) => Record::Head(Head {
                width: *width,
                events: word(*low, *high),
            }),
            (2, [instance, kind, low, high]) => Record::Entry(Entry {
                instance: *instance,
                kind: *kind,
                number: word(*low, *high),
            }),
            (3, [low, high]) => Record::End(End {
                count: word(*low, *high),
            }),
            (_, _) => return Err(Flaw::WrongForm),
        };
        Ok((record, 4 + length))
    }
}
