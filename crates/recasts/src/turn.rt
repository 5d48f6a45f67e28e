ghost use Rattle.std.specs.Prelude.{◌≡◌, ℕ, ◌<◌, ◌≤◌, length, unwrap_or, slice_index_or};
ghost use Rattle.joining.specs.Recast.{from, turns_below};

use std::array;

// The names that a table gives to instances, and back: the first instance of each name, 32 where there is none.
#[derive(Clone, Copy)]
pub(crate) struct Turn {
    pub(crate) to: [u8; 32],
    back: [u8; 32],
    ghost names: { length to ≡ 32 },
    ghost places: { length back ≡ 32 },
    ghost inverse: { (j : ℕ) → j < 32 → slice_index_or back j 0 ≡ from to j },
}

// The first instance that has the name j.
fn first_named(to: &[u8], j: u8) -> Option<u8>
    requires { length to.now ≡ 32 }
    ensures { unwrap_or result 32 ≡ from to.now j }
{
    to.iter().position(|name| *name == j).map(|i| i as u8)
}

impl Turn {
    pub(crate) fn new(to: [u8; 32]) -> Turn
        ensures { result.to ≡ to }
    {
        let back = array::from_fn(|j| first_named(&to, j as u8).unwrap_or(32));
        Turn { to, back }
    }

    // The first instance that has the name j.
    pub(crate) fn first(&self, j: usize) -> Option<usize>
        requires { j < 32 }
        ensures { unwrap_or result 32 ≡ from self.now.to j }
    {
        let first = usize::from(self.back[j]);
        (first < self.to.len()).then_some(first)
    }

    // Whether the table is a permutation of the instances below the width: each name below it then has its first instance there.
    // The width comes from the chart at each call: a bounded number's type would be made here alone.
    pub(crate) fn permutes(&self, width: usize) -> bool
        requires { width ≤ 32 }
        ensures { result ≡ turns_below self.now.to width width }
    {
        self.back[..width]
            .iter()
            .all(|first| usize::from(*first) < width)
    }

    // The names back. A table has a byte for each, so 32 stands for a name that no instance has.
    pub(crate) fn inverse(&self) -> [u8; 32]
        ensures places { length result ≡ 32 }
        ensures inverse { (j : ℕ) → j < 32 → slice_index_or result j 0 ≡ from self.now.to j }
    {
        self.back
    }
}
