// Measures how reading a chart text, judging its chart and all latest places grow with the chart.
use crate::run_times::{pile, places};
use charts::{Chart, MOST_EVENTS};
use media::Free;
use runs::{Run, Verdict};
use std::alloc::{AllocError, Global};
use std::time::Instant;
use tables::Table;
use texts::{Reading, TextTables};

// Outputs of instance i to the next one.
fn add_outputs(text: &mut String, i: u16, next: u16, messages: u16) -> Result<(), AllocError> {
    for m in 0..messages {
        write!(text, "out m{i}x{m} to i{next};")?;
    }
    Ok(())
}

// Inputs from the instance before.
fn add_inputs(text: &mut String, before: u16, messages: u16) -> Result<(), AllocError> {
    for m in 0..messages {
        write!(text, "in m{before}x{m} from i{before};")?;
    }
    Ok(())
}

// The text of a ring of instances: each outputs so many messages to the next, and inputs as many from the one before.
fn ring_text(heap: Global, instances: u16, messages: u16) -> Result<String, AllocError> {
    let count = instances.max(1);
    let mut text = String::new(heap);
    write!(text, "msc ring;")?;
    for i in 0..count {
        write!(text, "instance i{i};")?;
        add_outputs(&mut text, i, i.wrapping_add(1) % count, messages)?;
        add_inputs(
            &mut text,
            i.wrapping_add(count).wrapping_sub(1) % count,
            messages,
        )?;
        write!(text, "endinstance;")?;
    }
    write!(text, "endmsc;")?;
    Ok(text)
}

// Shows how long a new run, judging it and all latest places take.
fn time_chart<C: Chart>(rt: &HostRuntime, chart: &C) -> anyhow::Result<()> {
    let start = Instant::now(rt)?;
    let run = Run::new(chart, Free);
    let made = start.elapsed(rt)?.as_micros();
    let mut order = [0; MOST_EVENTS];
    let start = Instant::now(rt)?;
    let verdict = run.judge(&mut order);
    let judged = start.elapsed(rt)?.as_micros();
    let steps = match verdict {
        Ok(Verdict::Runs(n)) => n,
        Ok(Verdict::Stuck(_)) | Err(_) => 0,
    };
    let start = Instant::now(rt)?;
    let sum = places(chart, &run);
    let took = start.elapsed(rt)?.as_micros();
    println!(rt; " {made} | {judged} | {took} | {steps} steps, places sum to {sum} |")?;
    Ok(())
}

// The same of the chart over the rows in use.
fn time_table(rt: &HostRuntime, reading: &Reading, tables: &TextTables) -> anyhow::Result<()> {
    match (
        tables.lengths.get(..reading.instances),
        tables.events.get(..reading.events),
    ) {
        (Some(lengths), Some(events)) => time_chart(rt, &Table::new(lengths, events)),
        (_, _) => Ok(()),
    }
}

// Reads a text of a ring, and shows how long it takes, and how long its chart takes.
fn time_ring(rt: &HostRuntime, instances: u16, messages: u16) -> anyhow::Result<()> {
    let text = ring_text(rt.alloc(), instances, messages)?;
    let bytes = text.as_bytes();
    let start = Instant::now(rt)?;
    let answer = TextTables::read(bytes);
    let took = start.elapsed(rt)?.as_micros();
    let Ok((reading, tables)) = answer else {
        return Ok(());
    };
    let size = bytes.len();
    print!(rt; "| {instances} | {} | {size} | {took} |", reading.events)?;
    time_table(rt, &reading, &tables)
}

// Rings of 2, 9 and 32 instances with 256 to 4,096 events.
fn measure_rings(rt: &HostRuntime) -> anyhow::Result<()> {
    rt.println(
        "| instances | events | bytes of text | read | new run | judged | all latest places | |",
    )?;
    rt.println("|---|---|---|---|---|---|---|---|")?;
    for instances in [2, 9, 32u16] {
        for events in [256, 512, 1024, 2048, 4096u16] {
            time_ring(rt, instances, events / (2 * instances))?;
        }
    }
    Ok(())
}

// Piles of one to eight joins.
fn measure_piles(rt: &HostRuntime) -> anyhow::Result<()> {
    rt.println("| joins | events | new run | judged | all latest places | |")?;
    rt.println("|---|---|---|---|---|---|")?;
    for joins in 1..=8u8 {
        let chart = pile(rt.alloc(), joins)?;
        print!(rt;
            "| {joins} | {} |",
            chart.summary().map_or(0, |size| size.events)
        )?;
        time_chart(rt, &chart)?;
    }
    Ok(())
}

pub(crate) fn measure_growing(rt: &HostRuntime) -> anyhow::Result<()> {
    rt.println("microseconds:")?;
    measure_rings(rt)?;
    measure_piles(rt)
}
