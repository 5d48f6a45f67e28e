ghost use Rattle.std.specs.Prelude.{◌≡◌, ◌≤◌, length, take};

// The steps that a drive made, by their instances.
// An array and a count, and no `ArrayVec`, which is not `Copy`.
#[derive(Clone, Copy)]
pub struct Steps {
    pub(crate) bytes: [u8; 4096],
    pub(crate) count: usize,
    ghost within: { count ≤ length bytes },
}

impl Steps {
    // The instances, in the order in which they stepped.
    pub fn as_slice(&self) -> &[u8]
        ensures value { result.now ≡ take self.now.count self.now.bytes }
    {
        &self.bytes[..self.count]
    }

    // How many there are.
    pub fn len(&self) -> usize
        ensures value { result ≡ length (take self.now.count self.now.bytes) }
        ensures fits { result ≤ 4096 }
    {
        self.count
    }
}
