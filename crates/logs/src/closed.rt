ghost use Rattle.std.specs.Prelude.{◌≡◌};

use crate::parts::Closed;

impl Closed {
    // Ends the follower, and answers how many records it has taken; at the greatest number it stops counting.
    pub fn leave(self) -> usize
        ensures { result ≡ self.index }
    {
        let Closed { index: taken } = self;
        taken
    }
}
