ghost use Rattle.std.specs.Prelude.{◌≡◌, [], ◌∷◌};
ghost use Rattle.runs.specs.Refusals.{told};
ghost use Rattle.runs.specs.declared.parts.Refusal.TheVariants.{ShortBuffer as ShortForRun};

use runs::Refusal;

// A line is written into a buffer of this length or more, and no line is longer.
pub const LINE_ROOM: usize = 640;

// A buffer is too short for a line. The number is that of the same refusal of a run.
#[derive(Clone, Copy, PartialEq, Eq, Debug)]
pub struct ShortBuffer;

impl From<ShortBuffer> for u8 {
    ghost from_gives = { λ _ number. told ShortForRun ≡ number ∷ [] };

    fn from(_short: ShortBuffer) -> u8 {
        44
    }
}

impl From<ShortBuffer> for Refusal {
    ghost from_gives = { λ _ refusal. refusal ≡ ShortForRun };

    fn from(_short: ShortBuffer) -> Refusal {
        Refusal::ShortBuffer
    }
}
