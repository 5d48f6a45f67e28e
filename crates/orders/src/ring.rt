ghost use Rattle.orders.specs.Theorems.{StuckHasRing};

// At an end that is not full, following the waits comes to one ring, the same at every end.
pub fn a_stuck_end_has_one_ring()
    ensures { StuckHasRing }
{}
