use crate::cases::{EVENTS, LENGTHS};
use charts::Event;
use logs::{Cause, Refusal, Verdict, check_log};
use media::Free;
use records::{End, Entry, Head};
use runs::Run;
use std::alloc::{AllocError, Global};
use std::process::Abort;
use tables::Table;

// The log of these steps, as far as a run makes them, and what its check is to answer: an entry of an event that does not run is added, and is the last.
fn write_log(steps: &[u8; 5], log: &mut Vec<u8>) -> Result<Result<Verdict, Refusal>, AllocError> {
    let chart = Table::new(&LENGTHS, &EVENTS);
    let mut run = Run::new(&chart, Free);
    let head = Head {
        width: 3,
        events: 5,
    };
    log.extend_from_slice(&head.to_bytes())?;
    for (taken, step) in steps.iter().enumerate() {
        let event = run.next(usize::from(*step)).unwrap_or(Event {
            kind: 3,
            peer: 255,
            number: 9,
        });
        let entry = Entry {
            instance: *step,
            kind: event.kind,
            number: event.number,
        };
        log.extend_from_slice(&entry.to_bytes())?;
        match run.step(usize::from(*step)) {
            Ok(_) => {}
            Err(runs::Refusal::MustWait(j)) => {
                return Ok(Err(Refusal::Record(taken + 1, Cause::MustWait(j))));
            }
            Err(_) => return Ok(Err(Refusal::Record(taken + 1, Cause::NotNext))),
        }
    }
    log.extend_from_slice(&End { count: 5 }.to_bytes())?;
    Ok(Ok(Verdict::Full))
}

fn check_steps(rt: &impl Abort, alloc: Global, steps: &[u8; 5]) -> Result<bool, AllocError> {
    let mut log = Vec::new(alloc);
    let expected = write_log(steps, &mut log)?;
    let (answer, _) = check_log(&Table::new(&LENGTHS, &EVENTS), Free, log.as_slice());
    assert_eq!(rt; answer, expected);
    Ok(answer.is_ok())
}

// Every list of five of the three instances: a log of its steps is full exactly where a run makes them all.
#[test]
fn every_order_is_taken_that_a_run_makes(rt: HostRuntime) -> Result<(), AllocError> {
    let mut full = 0u32;
    for n in 0..243u8 {
        let steps = [n / 81 % 3, n / 27 % 3, n / 9 % 3, n / 3 % 3, n % 3];
        if check_steps(&rt, rt.alloc(), &steps)? {
            full = full.saturating_add(1);
        }
    }
    assert_eq!(rt; full, 9);
    Ok(())
}
