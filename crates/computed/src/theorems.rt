ghost use Rattle.computed.specs.Computed.{Computed};

// Each relation on orders holds of a sound chart exactly where the test that computes it answers true, or of exactly what is computed.
pub fn relations_on_orders_are_computed()
    ensures { Computed }
{}
