ghost use Rattle.std.specs.Prelude.{◌≤◌, IfOk};
ghost use Rattle.lines.specs.Buffers.{WritesLine};
ghost use Rattle.lines.specs.Lines.{heading_line};

use crate::line::Line;
use crate::listing::Listing;
use crate::parts::ShortBuffer;

impl Listing<'_, '_> {
    // Writes the line of the chart's name, and of how many instances and events it has.
    pub fn heading_line(&self, buffer: &mut [u8]) -> Result<usize, ShortBuffer>
        ensures writes { WritesLine (heading_line self.now) buffer.old result buffer.new }
        ensures fits { IfOk result (λ n. n ≤ 640) }
    {
        let mut line = Line::of(b"chart");
        line.word(self.reading.title.bytes);
        line.number(self.reading.instances);
        line.number(self.reading.events);
        line.write(buffer)
    }
}
