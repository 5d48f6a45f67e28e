ghost use Rattle.std.specs.Prelude.{◌≤◌, IfOk};
ghost use Rattle.lines.specs.Buffers.{WritesLine};
ghost use Rattle.lines.specs.Lines.{refusal_line};

use crate::line::Line;
use crate::parts::ShortBuffer;
use words::Fault;

// Writes the line of a fault for which a chart text is refused.
pub fn refusal_line(fault: Fault, buffer: &mut [u8]) -> Result<usize, ShortBuffer>
    ensures writes { WritesLine (refusal_line fault) buffer.old result buffer.new }
    ensures fits { IfOk result (λ n. n ≤ 640) }
{
    let mut line = Line::of(b"refused");
    line.number(usize::from(u8::from(fault.cause)));
    line.word(b"at");
    line.number(fault.byte);
    line.write(buffer)
}
