// Scripts read from a text, and played: a chart, a medium, calls of a run, and logs.
#![tactic(auto)]

mod checking;
mod draft;
mod drawing;
mod parts;
mod playing;
mod reading;

pub use parts::{Log, Played, Script, Unplayed};
pub use playing::play;
pub use reading::read_script;
