// Measures judge, and the latest places of all events, on charts of the largest sizes.
use charts::{Chart, Event, Kind, Peer};
use flats::Flat;
use joins::After;
use media::Free;
use polls::Poll;
use runs::{Run, Verdict};
use std::alloc::{AllocError, Global};
use std::time::Instant;
use tables::Table;

// So many events of one kind with one peer, of the messages from a first one on.
pub(crate) fn add_messages(
    events: &mut Vec<Event>,
    kind: Kind,
    peer: Peer,
    first: u16,
    messages: u16,
) -> Result<(), AllocError> {
    for m in 0..messages {
        events.push(Event::new(kind, peer, first.wrapping_add(m)))?;
    }
    Ok(())
}

// So many pairs of instances; in each pair the first outputs so many messages to the second, which inputs them in turn.
fn pairs(heap: Global, couples: u8, messages: u16) -> Result<Flat, AllocError> {
    let mut lengths = Vec::new(heap);
    let mut events = Vec::new(heap);
    for couple in 0..couples.min(16) {
        let first = couple * 2;
        let base = u16::from(couple).wrapping_mul(messages);
        add_messages(
            &mut events,
            Kind::Output,
            Peer::Instance(first + 1),
            base,
            messages,
        )?;
        add_messages(
            &mut events,
            Kind::Input,
            Peer::Instance(first),
            base,
            messages,
        )?;
        lengths.push(messages)?;
        lengths.push(messages)?;
    }
    Flat::new(heap, &Table::new(lengths.as_slice(), events.as_slice()))
}

// Charts of 16 pairs with 14 messages each, 448 events, joined one after the other by so many joins.
pub(crate) fn pile(heap: Global, joins: u8) -> Result<Flat, AllocError> {
    let mut chart = pairs(heap, 16, 14)?;
    for _ in 0..joins {
        let next = pairs(heap, 16, 14)?;
        chart = Flat::new(heap, &After::new(chart, next))?;
    }
    Ok(chart)
}

// The sum of the latest places of all events, by hand, so that it saturates and is not proved to fit. A refusal has no place: 0.
pub(crate) fn places<C: Chart>(chart: &C, run: &Run<Free>) -> u64 {
    let mut sum = 0u64;
    for i in 0..chart.width() {
        for k in 0..chart.count(i) {
            let place = run.latest(i, k).unwrap_or(0);
            sum = sum.saturating_add(place as u64);
        }
    }
    sum
}

fn measure_chart<C: Chart>(rt: &HostRuntime, name: &str, chart: &C) -> anyhow::Result<()> {
    let start = Instant::now(rt)?;
    let run = Run::new(chart, Free);
    let made = start.elapsed(rt)?.as_micros();
    let mut buffer = vec![in rt.alloc(); 0u8; 4096]?;
    let start = Instant::now(rt)?;
    let verdict = run.judge(buffer.as_mut_slice());
    let judged = start.elapsed(rt)?.as_micros();
    let written = match verdict {
        Ok(Verdict::Runs(n)) => n,
        Ok(Verdict::Stuck(_)) | Err(_) => 0,
    };
    println!(rt;
        "{name}: a new run {made} microseconds, judged {judged} microseconds, order of {written} steps"
    )?;
    let start = Instant::now(rt)?;
    let sum = places(chart, &run);
    let took = start.elapsed(rt)?.as_millis();
    println!(rt; "{name}: all latest places (they sum to {sum}) {took} milliseconds")?;
    Ok(())
}

pub(crate) fn measure_runs(rt: &HostRuntime) -> anyhow::Result<()> {
    measure_chart(rt, "poll of 31 keypads in 32 rounds", &Poll::new(31, 32))?;
    measure_chart(
        rt,
        "16 pairs with 256 events each",
        &pairs(rt.alloc(), 16, 128)?,
    )?;
    measure_chart(rt, "pile of 8 joins", &pile(rt.alloc(), 8)?)
}
