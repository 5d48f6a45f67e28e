ghost use Rattle.plays.specs.Played.{Plays};

use crate::checking::check_all;
use crate::parts::{Played, Script, Unplayed};
use crate::reading::read_script;
use runs::replay;
use std::alloc::Global;

// Makes the calls of a script, one after another on a new run, checks each of its logs on a new run of its own, and answers the turns and the logs; or the first line that cannot be read, or the fault of the first chart text that is refused, whichever comes first.
pub fn play(heap: Global, text: &[u8]) -> Result<Played, Unplayed>
    ensures { Plays text.now result }
{
    let Script {
        chart,
        bus,
        mut turns,
        mut logs,
    } = read_script(heap, text)?;
    let bus = replay(&chart, bus, turns.as_mut_slice());
    check_all(&chart, bus, logs.as_mut_slice());
    Ok(Played { turns, logs })
}
