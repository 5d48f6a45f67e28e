ghost use Rattle.std.specs.Prelude.{◌≤◌, length};

// Instances that wait for each other, in the order in which a walk met them.
// An array and a length, and no `ArrayVec`, which is not `Copy`.
#[derive(Clone, Copy)]
pub struct Ring {
    pub(crate) cells: [u8; 32],
    pub(crate) len: usize,
    ghost within: { len ≤ length cells },
}
