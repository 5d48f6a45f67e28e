ghost use Rattle.media.specs.Media.{free};

use crate::medium::Medium;

// Carries every message in any order.
#[derive(Clone, Copy)]
pub struct Free;

impl Medium for Free {
    ghost carries = { λ _. free };

    fn sends(&self, _i: usize, _j: usize, _on_the_way: usize) -> bool {
        true
    }

    fn takes(&self, _i: usize, _j: usize, _ahead: usize) -> bool {
        true
    }
}
