// Reads a chart text on standard input, judges a new run of its chart, and lists its events in an order in which they may run.
#![tactic(auto)]

use judged::judged_lines;
use std::io::Read;

// No more bytes of the text are read.
const TEXT_ROOM: u64 = 65_536;

fn run(rt: &HostRuntime) -> anyhow::Result<()> {
    let mut text = Vec::new(rt.alloc());
    rt.stdin().take(TEXT_ROOM).read_to_end(&mut text)?;
    let end = text.len().min(TEXT_ROOM as usize);
    let lines = judged_lines(rt.alloc(), &text.as_slice()[..end])?;
    rt.write_all(lines.as_slice())?;
    Ok(())
}

// An error is told on standard error; the status is 0 all the same.
fn main(rt: HostRuntime) {
    if let Err(e) = run(&rt) {
        let _ = eprintln!(rt; "Error: {e}");
    }
}
