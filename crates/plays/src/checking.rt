ghost use Rattle.std.specs.Prelude.{map};
ghost use Rattle.buses.specs.Carried.{carried};
ghost use Rattle.piles.specs.Meanings.{flat_meaning};
ghost use Rattle.plays.specs.Logs.{log_content};
ghost use Rattle.plays.specs.Checked.{LogChecked, LogsChecked};

use crate::parts::Log;
use buses::Bus;
use flats::Flat;
use logs::check_log;

// Checks a log on a new run.
fn check_one(chart: &Flat, bus: Bus, log: &mut Log)
    ensures { LogChecked (flat_meaning chart.now) (carried bus) (log_content log.old) log.new }
{
    // The bus that comes back is the one that was handed in.
    let (answer, _) = check_log(chart, bus, log.bytes.as_slice());
    log.answer = Some(answer);
}

// Checks each log, on a new run of its own.

pub(crate) fn check_all(chart: &Flat, bus: Bus, logs: &mut [Log])
    ensures { LogsChecked (flat_meaning chart.now) (carried bus) (map log_content logs.old) logs.new }
{
    for log in logs.iter_mut() {
        check_one(chart, bus, log);
    }
}
