ghost use Rattle.std.specs.Prelude.{◌≡◌, ◌≤◌, length};

// A chart text, and the place up to which it was read.
#[derive(Clone, Copy)]
pub struct Reader<'t> {
    pub(crate) text: &'t [u8],
    pub(crate) at: usize,
    ghost within: { at ≤ length text.now },
}
