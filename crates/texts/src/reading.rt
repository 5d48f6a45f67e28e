ghost use Rattle.std.specs.Prelude.{◌≡◌, ◌≤◌, ◌+◌, length, take, drop};

use words::Word;

// What a chart text was read as: its name, and how many rows of the tables are in use. The name lies in the text and has 1 to 16 bytes.
#[derive(Clone, Copy)]
pub struct Reading<'t> {
    pub text: &'t [u8],
    pub title: Word<'t>,
    pub instances: usize,
    pub events: usize,
    pub messages: usize,
    pub actions: usize,
    ghost within: { title.start + length title.bytes.now ≤ length text.now },
    ghost bytes: { title.bytes.now ≡ take (length title.bytes.now) (drop title.start text.now) },
    ghost some: { 1 ≤ length title.bytes.now },
    ghost few: { length title.bytes.now ≤ 16 },
}
