ghost use Rattle.std.specs.Prelude.{◌≡◌, ℕ, ◌<◌, true, false, MatchOption, ◌||◌, ◌&&◌, not, ◌==◌};
ghost use Rattle.rules.specs.Instances.{has};

// A set of instances, a bit for each that a chart can have.
#[derive(Clone, Copy)]
pub(crate) struct Instances {
    pub(crate) bits: u32,
}

impl Instances {
    // Every instance.
    #[tactic(auto, using(crate::proofs::Bits::all_set))]
    pub(crate) fn all() -> Instances
        ensures { (i : ℕ) → i < 32 → has result i ≡ true }
    {
        Instances { bits: u32::MAX }
    }

    // The lowest-numbered one.
    #[tactic(auto, using(crate::proofs::Bits::lowest_set))]
    pub(crate) fn lowest(&self) -> Option<usize>
        ensures { MatchOption result ((j : ℕ) → j < 32 → has self.now j ≡ false) (λ i. (i < 32) × (has self.now i ≡ true) × ((j : ℕ) → j < i → has self.now j ≡ false)) }
    {
        if self.bits == 0 {
            None
        } else {
            Some(self.bits.trailing_zeros() as usize)
        }
    }

    // Puts instance i in, if a chart can have it.
    #[tactic(auto, using(crate::proofs::Bits::insert_set))]
    pub(crate) fn insert(&mut self, i: usize)
        ensures { (j : ℕ) → j < 32 → has self.new j ≡ (has self.old j || j == i) }
    {
        if i < 32 {
            self.bits |= 1 << i;
        }
    }

    // Takes instance i out.
    #[tactic(auto, using(crate::proofs::Bits::remove_set, crate::proofs::Bits::remove_less))]
    pub(crate) fn remove(&mut self, i: usize)
        requires { i < 32 }
        ensures members { (j : ℕ) → j < 32 → has self.new j ≡ (has self.old j && not (j == i)) }
        ensures fewer { has self.old i ≡ true → self.new.bits < self.old.bits }
    {
        self.bits &= !(1 << i);
    }
}
