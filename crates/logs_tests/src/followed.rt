use crate::cases::{EVENTS, LATE, LENGTHS};
use charts::{Event, Fault};
use logs::{Cause, Following, Refusal, Verdict, Waiting};
use media::Free;
use runs::Run;
use std::process::Abort;
use tables::Table;

fn new_run() -> Run<Free> {
    Run::new(&Table::new(&LENGTHS, &EVENTS), Free)
}

fn check_head_refused(
    rt: &impl Abort,
    follower: Waiting,
    run: &Run<Free>,
    bytes: &[u8],
    refusal: Refusal,
) -> Waiting {
    match follower.head(run, bytes) {
        Ok(following) => {
            assert!(rt; false);
            following.leave();
            Waiting::new()
        }
        Err((waiting, refused)) => {
            assert_eq!(rt; refused, refusal);
            waiting
        }
    }
}

fn begin(rt: &impl Abort, follower: Waiting, run: &Run<Free>, bytes: &[u8]) -> Option<Following> {
    match follower.head(run, bytes) {
        Ok(following) => Some(following),
        Err((waiting, _)) => {
            assert!(rt; false);
            waiting.leave();
            None
        }
    }
}

fn check_event_refused(
    rt: &impl Abort,
    follower: Following,
    run: &mut Run<Free>,
    bytes: &[u8],
    refusal: Refusal,
) -> Following {
    match follower.event(run, bytes) {
        Ok(following) => {
            assert!(rt; false);
            following
        }
        Err((following, refused)) => {
            assert_eq!(rt; refused, refusal);
            following
        }
    }
}

fn take_event(
    rt: &impl Abort,
    follower: Following,
    run: &mut Run<Free>,
    bytes: &[u8],
) -> Following {
    match follower.event(run, bytes) {
        Ok(following) => following,
        Err((following, _)) => {
            assert!(rt; false);
            following
        }
    }
}

// The end is refused by this, or closes the log with the verdict.
fn check_end(
    rt: &impl Abort,
    follower: Following,
    run: &Run<Free>,
    bytes: &[u8],
    answer: Result<Verdict, Refusal>,
) -> Option<Following> {
    match follower.end(run, bytes) {
        Ok((closed, verdict)) => {
            assert_eq!(rt; Ok(verdict), answer);
            closed.leave();
            None
        }
        Err((following, refused)) => {
            assert_eq!(rt; Err(refused), answer);
            Some(following)
        }
    }
}

#[test]
fn a_waiting_follower_refuses_what_is_no_head_of_its_chart(rt: HostRuntime) {
    let run = new_run();
    let cases: [(&[u8], Cause); 8] = [
        (&[], Cause::CutShort),
        (&LATE[..6], Cause::CutShort),
        (&[255, 255, 1, 0, 3, 5, 0], Cause::CutShort),
        (&LATE[7..15], Cause::WrongRecord),
        (&LATE[47..], Cause::WrongRecord),
        // a byte after it
        (&LATE[..8], Cause::WrongRecord),
        (&[3, 0, 1, 0, 4, 5, 0], Cause::OtherChart),
        (&[3, 0, 1, 0, 3, 5, 1], Cause::OtherChart),
    ];
    let mut follower = Waiting::new();
    for (bytes, cause) in cases {
        follower = check_head_refused(&rt, follower, &run, bytes, Refusal::Record(0, cause));
    }
    follower.leave();
}

#[test]
fn a_following_follower_refuses_what_may_not_stand_there(rt: HostRuntime) {
    let mut run = new_run();
    let cases: [(&[u8], Cause); 9] = [
        (&LATE[7..14], Cause::CutShort),
        (&[255, 255, 2, 0, 0, 1, 0, 0], Cause::CutShort),
        (&LATE[..7], Cause::WrongRecord),
        (&LATE[47..], Cause::WrongRecord),
        (&LATE[7..16], Cause::WrongRecord),
        // the second event of the siren, and an event of no instance
        (&LATE[39..47], Cause::NotNext),
        (&[4, 0, 2, 0, 3, 1, 0, 0], Cause::NotNext),
        (&LATE[15..23], Cause::MustWait(0)),
        (&[4, 0, 2, 0, 2, 1, 0, 0], Cause::NotNext),
    ];
    if let Some(begun) = begin(&rt, Waiting::new(), &run, &LATE[..7]) {
        let mut follower = begun;
        for (bytes, cause) in cases {
            let refusal = Refusal::Record(1, cause);
            follower = check_event_refused(&rt, follower, &mut run, bytes, refusal);
            assert_eq!(rt; run.next(0), Some(EVENTS[0]));
        }
        follower.leave();
    }
}

#[test]
fn a_log_is_followed_to_its_end_with_refusals_in_between(rt: HostRuntime) {
    let mut run = new_run();
    let waiting = check_head_refused(
        &rt,
        Waiting::new(),
        &run,
        &[],
        Refusal::Record(0, Cause::CutShort),
    );
    if let Some(begun) = begin(&rt, waiting, &run, &LATE[..7]) {
        let mut follower = begun;
        for k in 0..5usize {
            let at = 7 + 8 * k;
            let refusal = Refusal::Record(k + 1, Cause::WrongRecord);
            follower = check_event_refused(&rt, follower, &mut run, &LATE[..7], refusal);
            follower = take_event(&rt, follower, &mut run, &LATE[at..at + 8]);
            // taken twice it is not the next
            let refusal = Refusal::Record(k + 2, Cause::NotNext);
            follower = check_event_refused(&rt, follower, &mut run, &LATE[at..at + 8], refusal);
        }
        let count = Err(Refusal::Record(6, Cause::WrongCount));
        if let Some(kept) = check_end(&rt, follower, &run, &[2, 0, 3, 0, 4, 0], count) {
            let cut = Err(Refusal::Record(6, Cause::CutShort));
            if let Some(last) = check_end(&rt, kept, &run, &LATE[47..52], cut) {
                let closed = check_end(&rt, last, &run, &LATE[47..], Ok(Verdict::Full));
                if let Some(open) = closed {
                    open.leave();
                }
            }
        }
    }
}

#[test]
fn a_part_of_a_log_is_closed(rt: HostRuntime) {
    let mut run = new_run();
    if let Some(begun) = begin(&rt, Waiting::new(), &run, &LATE[..7]) {
        let follower = take_event(&rt, begun, &mut run, &LATE[7..15]);
        let closed = check_end(&rt, follower, &run, &[2, 0, 3, 0, 1, 0], Ok(Verdict::Part));
        if let Some(open) = closed {
            open.leave();
        }
    }
}

#[test]
fn a_spoiled_chart_is_told_first(rt: HostRuntime) {
    let action = [Event {
        kind: 4,
        peer: 255,
        number: 0,
    }];
    let fault = Fault {
        number: 14,
        instance: 0,
        event: 0,
        layer: 1,
    };
    let mut spoiled = Run::new(&Table::new(&[1], &action), Free);
    let refusal = Refusal::Spoiled(fault);
    check_head_refused(&rt, Waiting::new(), &spoiled, &LATE[..7], refusal).leave();
    // a follower of another run is handed back as well
    if let Some(begun) = begin(&rt, Waiting::new(), &new_run(), &LATE[..7]) {
        let follower = check_event_refused(&rt, begun, &mut spoiled, &LATE[7..15], refusal);
        if let Some(open) = check_end(&rt, follower, &spoiled, &LATE[47..], Err(refusal)) {
            open.leave();
        }
    }
}

// The run is restarted after each event, so that more entries are taken than any chart has events.
#[test]
fn no_end_counts_more_entries_than_it_can_tell(rt: HostRuntime) {
    let action = [Event {
        kind: 3,
        peer: 255,
        number: 0,
    }];
    let mut run = Run::new(&Table::new(&[1], &action), Free);
    if let Some(begun) = begin(&rt, Waiting::new(), &run, &[3, 0, 1, 0, 1, 1, 0]) {
        let mut follower = begun;
        for _ in 0..65_537u32 {
            follower = take_event(&rt, follower, &mut run, &[4, 0, 2, 0, 0, 3, 0, 0]);
            let _ = run.restart();
        }
        for count in [0u8, 1, 255] {
            let refusal = Refusal::Record(65_538, Cause::WrongCount);
            match check_end(
                &rt,
                follower,
                &run,
                &[2, 0, 3, 0, count, count],
                Err(refusal),
            ) {
                Some(kept) => follower = kept,
                None => return,
            }
        }
        follower.leave();
    }
}
