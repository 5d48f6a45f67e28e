ghost use Rattle.std.specs.Prelude.{◌≡◌, ◌≤◌, length, IfOk};
ghost use Rattle.lines.specs.Buffers.{WritesLine};
ghost use Rattle.lines.specs.Lines.{event_line, kind_word};

use crate::line::Line;
use crate::listing::Listing;
use crate::parts::ShortBuffer;
use charts::{Chart, Kind};

// The word for the kind that a byte stands for, `?` where it stands for none.
fn kind_word(kind: u8) -> &'static [u8]
    ensures bytes { result.now ≡ kind_word kind }
    ensures few { length result.now ≤ 6 }
{
    match Kind::try_from(kind) {
        Ok(kind) => kind.name().as_bytes(),
        Err(_) => b"?",
    }
}

impl Listing<'_, '_> {
    // Writes the line of the event at an index of an instance, at a place of an order.
    pub fn event_line(
        &self,
        place: usize,
        instance: usize,
        index: usize,
        buffer: &mut [u8],
    ) -> Result<usize, ShortBuffer>
        ensures writes { WritesLine (event_line self.now place instance index) buffer.old result buffer.new }
        ensures fits { IfOk result (λ n. n ≤ 640) }
    {
        let event = self.table.event(instance, index);
        let mut line = Line::of_number(place);
        line.word(self.instance_name(instance));
        line.word(kind_word(event.kind));
        line.word(self.event_name(event));
        line.write(buffer)
    }
}
