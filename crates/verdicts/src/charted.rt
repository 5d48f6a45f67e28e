ghost use Rattle.std.specs.Prelude.{◌≡◌, ◌≤◌, length, take, None};
ghost use Rattle.checks.specs.Checked.{checked};

use charts::Event;
use texts::Name;

// The tables of a chart that was read from a text, and where the names of its instances stand.
#[derive(Drop)]
pub(crate) struct Charted {
    pub(crate) lengths: [u16; 32],
    pub(crate) events: [Event; 4096],
    pub(crate) names: [Name; 32],
    pub(crate) width: usize,
    pub(crate) count: usize,
    ghost few: { width ≤ length lengths },
    ghost short: { count ≤ length events },
    ghost sound: { checked (take width lengths) (take count events) ≡ None },
}
