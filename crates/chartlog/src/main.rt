// Checks a log against the chart of a chart text, lists the events that were taken, and tells what the log is.
#![tactic(auto)]

use logged::logged_lines;
use std::env;
use std::fs::File;
use std::io::Read;

// No more bytes of the chart text are read.
const TEXT_ROOM: usize = 65_536;

// Shows the log in one file by the chart text in the other.
fn show_files(rt: &HostRuntime, text: &str, log: &str) -> anyhow::Result<()> {
    let mut chart = Vec::new(rt.alloc());
    File::open(rt, text)?
        .take(TEXT_ROOM as u64)
        .read_to_end(&mut chart)?;
    let mut bytes = Vec::new(rt.alloc());
    File::open(rt, log)?.read_to_end(&mut bytes)?;
    let end = chart.len().min(TEXT_ROOM);
    let lines = logged_lines(rt.alloc(), &chart.as_slice()[..end], bytes.as_slice())?;
    rt.write_all(lines.as_slice())?;
    Ok(())
}

fn run(rt: &HostRuntime) -> anyhow::Result<()> {
    let words = env::args(rt)?.collect::<Vec<String>>(rt.alloc())?;
    match words.as_slice() {
        [_, text, log] => show_files(rt, text.as_str(), log.as_str()),
        _ => {
            rt.println("usage: chartlog TEXT LOG")?;
            Ok(())
        }
    }
}

// An error is told on standard error; the status is 0 all the same.
fn main(rt: HostRuntime) {
    if let Err(e) = run(&rt) {
        let _ = eprintln!(rt; "Error: {e}");
    }
}
