ghost use Rattle.std.specs.Prelude.{◌≡◌, ℕ};
ghost use Rattle.rules.specs.Boards.{positions};

use crate::board::Board;
use crate::rows::Rows;
use copies::Indexed;

impl Board {
    // No instance has stepped.
    pub fn new(copy: Indexed) -> Board
        ensures keeps { result.copy ≡ copy }
        ensures starts { (i : ℕ) → positions result i ≡ 0 }
    {
        Board {
            copy,
            rows: Rows::new(),
        }
    }

    // Sets every position to 0.
    pub fn restart(&mut self)
        ensures keeps { self.new.copy ≡ self.old.copy }
        ensures starts { (i : ℕ) → positions self.new i ≡ 0 }
    {
        self.rows = Rows::new();
    }
}
