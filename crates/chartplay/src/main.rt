// Plays the script on standard input, and shows what each call answered and what each log is.
#![tactic(auto)]

use anyhow::anyhow;
use listings::unreadable_line;
use plays::{Played, Unplayed, play};
use replies::{reply_lines, text_refusal_line};
use std::io::Read;

fn run(rt: &HostRuntime) -> anyhow::Result<()> {
    let mut text = Vec::new(rt.alloc());
    rt.stdin().read_to_end(&mut text)?;
    match play(rt.alloc(), text.as_slice()) {
        Ok(Played { turns, logs }) => {
            rt.print(reply_lines(rt.alloc(), turns.as_slice(), logs.as_slice())?)?
        }
        Err(Unplayed::Line(line)) => rt.println(unreadable_line(rt.alloc(), line)?)?,
        Err(Unplayed::Text(fault)) => rt.println(text_refusal_line(rt.alloc(), fault)?)?,
        Err(Unplayed::Memory) => return Err(anyhow!("no memory")),
    }
    Ok(())
}

// An error is told on standard error; the status is 0 all the same.
fn main(rt: HostRuntime) {
    if let Err(e) = run(&rt) {
        let _ = eprintln!(rt; "Error: {e}");
    }
}
