ghost use Rattle.media.specs.Media.{line};

use crate::medium::Medium;

// Carries the messages from one instance to another in their order.
#[derive(Clone, Copy)]
pub struct Line;

impl Medium for Line {
    ghost carries = { λ _. line };

    fn sends(&self, _i: usize, _j: usize, _on_the_way: usize) -> bool {
        true
    }

    fn takes(&self, _i: usize, _j: usize, ahead: usize) -> bool {
        ahead == 0
    }
}
