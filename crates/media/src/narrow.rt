ghost use Rattle.std.specs.Prelude.{◌≡◌};
ghost use Rattle.media.specs.Media.{narrow};

use crate::medium::Medium;

// Carries as the medium below, and sends only while fewer than so many are on the way from one instance to the other.
#[derive(Clone, Copy)]
pub struct Narrow<M> {
    room: u8,
    below: M,
}

impl<M: Medium> Narrow<M> {
    pub fn new(room: u8, below: M) -> Narrow<M>
        ensures { result ≡ record { room = room; below = below } }
    {
        Narrow { room, below }
    }
}

impl<M: Medium> Medium for Narrow<M> {
    ghost carries = { λ n. narrow n.room (M.Medium.carries n.below) };

    fn sends(&self, i: usize, j: usize, on_the_way: usize) -> bool {
        self.below.sends(i, j, on_the_way) && on_the_way < usize::from(self.room)
    }

    fn takes(&self, i: usize, j: usize, ahead: usize) -> bool {
        self.below.takes(i, j, ahead)
    }
}
