// Measures charts of the largest sizes: tables, and runs.
#![tactic(auto)]

mod growing;
mod run_times;

use crate::growing::measure_growing;
use crate::run_times::{add_messages, measure_runs};
use charts::{Chart, Event, Kind, Peer};
use std::alloc::{AllocError, Global};
use std::env;
use std::time::Instant;
use tables::Table;

const INSTANCES: u16 = 32;

// On each of the 32 instances 64 outputs to the next one and 64 inputs from the one before.
fn ring(heap: Global) -> Result<Vec<Event>, AllocError> {
    let mut events = Vec::new(heap);
    for i in 0..INSTANCES {
        let next = Peer::Instance(((i + 1) % INSTANCES) as u8);
        let before = (i + INSTANCES - 1) % INSTANCES;
        add_messages(&mut events, Kind::Output, next, i * 64, 64)?;
        add_messages(
            &mut events,
            Kind::Input,
            Peer::Instance(before as u8),
            before * 64,
            64,
        )?;
    }
    Ok(events)
}

fn measure(rt: &HostRuntime) -> anyhow::Result<()> {
    let events = ring(rt.alloc())?;
    let lengths = [128; 32];
    let start = Instant::now(rt)?;
    let sound = (0..1000)
        .filter(|_| Table::new(&lengths, events.as_slice()).fault().is_none())
        .count();
    let checked = start.elapsed(rt)?.as_micros();
    println!(rt; "{sound} of 1000 tables of 4096 events sound, {checked} microseconds in all")?;
    look_up(rt, &Table::new(&lengths, events.as_slice()))
}

fn look_up<C: Chart>(rt: &HostRuntime, chart: &C) -> anyhow::Result<()> {
    let start = Instant::now(rt)?;
    // Added up by hand, so that it saturates and is not proved to fit.
    let mut sum = 0u32;
    for i in 0..32 {
        for k in 0..128 {
            sum = sum.saturating_add(u32::from(chart.event(i, k).number));
        }
    }
    let took = start.elapsed(rt)?.as_micros();
    println!(rt; "4096 events looked up (numbers sum to {sum}), {took} microseconds in all")?;
    Ok(())
}

fn run(rt: &HostRuntime) -> anyhow::Result<()> {
    let words = env::args(rt)?.collect::<Vec<String>>(rt.alloc())?;
    match words.as_slice() {
        [] | [_] => {
            rt.println("usage: measure tables, measure runs, or measure growing")?;
            Ok(())
        }
        [_, what] if what.as_str() == "runs" => measure_runs(rt),
        [_, what] if what.as_str() == "growing" => measure_growing(rt),
        _ => measure(rt),
    }
}

fn main(rt: HostRuntime) -> anyhow::Result<()> {
    run(&rt)
}
