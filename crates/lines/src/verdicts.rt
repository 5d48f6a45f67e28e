ghost use Rattle.std.specs.Prelude.{◌≡◌, ◌≤◌, ◌∷◌, length, map, codes, take, IfOk};
ghost use Rattle.charts.specs.Texts.{spaced};
ghost use Rattle.lines.specs.Buffers.{WritesLine};
ghost use Rattle.lines.specs.Lines.{instance_name, verdict_line};

use crate::line::Line;
use crate::listing::Listing;
use crate::parts::ShortBuffer;
use charts::MOST_INSTANCES;
use runs::Verdict;

// The first instances of a ring, so many; all where there are fewer.
fn first(ring: &[u8], count: usize) -> &[u8]
    ensures value { result.now ≡ take count ring.now }
    ensures few { length result.now ≤ count }
{
    &ring[..count.min(ring.len())]
}

impl Listing<'_, '_> {
    // The line of a ring that a run gets stuck in, without its line feed.
    fn stuck(&self, ring: &[u8]) -> Line
        requires { length ring.now ≤ 32 }
        ensures bytes { result ≡ spaced (codes "stuck" ∷ map (instance_name self.now) ring.now) }
        ensures few { length result ≤ 549 }
    {
        let mut line = Line::of(b"stuck");
        for instance in ring {
            line.word(self.instance_name(usize::from(*instance)));
        }
        line
    }

    // Writes the line of a verdict, with the ring that it wrote into its own buffer.
    pub fn verdict_line(
        &self,
        verdict: Verdict,
        ring: &[u8],
        buffer: &mut [u8],
    ) -> Result<usize, ShortBuffer>
        ensures writes { WritesLine (verdict_line self.now verdict ring.now) buffer.old result buffer.new }
        ensures fits { IfOk result (λ n. n ≤ 640) }
    {
        let line = match verdict {
            Verdict::Runs(_) => Line::of(b"runs"),
            Verdict::Stuck(length) => {
                let ring = first(ring, length);
                self.stuck(first(ring, MOST_INSTANCES))
            }
        };
        line.write(buffer)
    }
}
