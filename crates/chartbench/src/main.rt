// Runs the rows of the bench and shows what came out of each, and then charts at the limits by their sizes or faults.
#![tactic(auto)]

use bench::Row;
use charts::Chart;
use joins::Beside;
use polls::Poll;
use replies::reply_line;

// The row in words: its chart, its bus, and what is asked.
fn title(row: Row) -> &'static str {
    match row {
        Row::Empty => "the empty chart, free",
        Row::LateText => "late, free, log 0",
        Row::LateTextTaken => "late, free, bus 0",
        Row::LateRing => "late, free, siren 0",
        Row::LateSound => "late, free, siren 1",
        Row::Cross => "cross, free",
        Row::OverFree => "over, free",
        Row::OverInLine => "over, line",
        Row::OverRoomForOne => "over, narrow 1 over free",
        Row::OverRoomForTwo => "over, narrow 2 over free",
        Row::HopNoRoom => "hop, narrow 0 over free",
        Row::PollDriven => "a poll of 1 keypad in 1 round, free, 4 steps",
        Row::HopAfterHop => "hop after hop, free, a 1",
        Row::HopBesideHop => "hop beside hop, free, 0 0",
        Row::ToItself => "a message to oneself, free",
    }
}

fn show_row(rt: &HostRuntime, row: Row) -> anyhow::Result<()> {
    let turn = row.play(vec![in rt.alloc(); 0u8; 32]?);
    if let Some(answer) = turn.answer {
        let line = reply_line(rt.alloc(), answer, turn.buffer.as_slice())?;
        println!(rt; "{}: {line}", title(row))?;
    }
    Ok(())
}

fn show_chart<C: Chart>(rt: &HostRuntime, title: &str, chart: &C) -> anyhow::Result<()> {
    match chart.summary() {
        Ok(size) => println!(rt; "{title}: {size}")?,
        Err(fault) => println!(rt; "{title}: {fault}")?,
    }
    Ok(())
}

fn run(rt: &HostRuntime) -> anyhow::Result<()> {
    for row in Row::ALL {
        show_row(rt, row)?;
    }
    show_chart(rt, "a poll of 31 keypads in 32 rounds", &Poll::new(31, 32))?;
    show_chart(rt, "a poll of 32 keypads in 1 round", &Poll::new(32, 1))?;
    let wide = Poll::new(15, 1);
    let wider = Poll::new(16, 1);
    show_chart(rt, "16 instances beside 16", &Beside::new(wide, wide))?;
    show_chart(rt, "16 instances beside 17", &Beside::new(wide, wider))?;
    Ok(())
}

fn main(rt: HostRuntime) -> anyhow::Result<()> {
    run(&rt)
}
