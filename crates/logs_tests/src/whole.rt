use crate::cases::{EVENTS, LATE, LENGTHS};
use charts::{Event, Fault};
use logs::{Cause, Refusal, Verdict, check_log};
use media::{Free, Narrow};
use tables::Table;

fn checked(log: &[u8]) -> Result<Verdict, Refusal> {
    check_log(&Table::new(&LENGTHS, &EVENTS), Free, log).0
}

fn refused(record: usize, cause: Cause) -> Result<Verdict, Refusal> {
    Err(Refusal::Record(record, cause))
}

#[test]
fn logs_are_full_or_a_part(rt: HostRuntime) {
    let cases: [(&[u8], Verdict); 3] = [
        (&LATE, Verdict::Full),
        (&[3, 0, 1, 0, 3, 5, 0, 2, 0, 3, 0, 0, 0], Verdict::Part),
        // the siren alone
        (
            &[
                3, 0, 1, 0, 3, 5, 0, 4, 0, 2, 0, 2, 1, 1, 0, 4, 0, 2, 0, 2, 3, 0, 0, 2, 0, 3, 0, 2,
                0,
            ],
            Verdict::Part,
        ),
    ];
    for (log, verdict) in cases {
        assert_eq!(rt; checked(log), Ok(verdict));
    }
}

#[test]
fn logs_are_refused_at_their_record(rt: HostRuntime) {
    let cases: [(&[u8], usize, Cause); 24] = [
        (&[], 0, Cause::CutShort),
        (&[3, 0, 1, 0, 3, 5], 0, Cause::CutShort),
        (&[255, 255, 1, 0, 3, 5, 0], 0, Cause::CutShort),
        (&[255, 255, 9, 0], 0, Cause::CutShort),
        (&[0, 0, 9, 0], 0, Cause::WrongRecord),
        (&[2, 0, 1, 0, 3, 5], 0, Cause::WrongRecord),
        // an end, and an entry, before the head
        (&[2, 0, 3, 0, 0, 0], 0, Cause::WrongRecord),
        (&[4, 0, 2, 0, 0, 1, 0, 0], 0, Cause::WrongRecord),
        // another width, another number of events
        (&[3, 0, 1, 0, 2, 5, 0], 0, Cause::OtherChart),
        (&[3, 0, 1, 0, 3, 5, 1], 0, Cause::OtherChart),
        (&[3, 0, 1, 0, 3, 5, 0], 1, Cause::CutShort),
        // two heads
        (
            &[3, 0, 1, 0, 3, 5, 0, 3, 0, 1, 0, 3, 5, 0],
            1,
            Cause::WrongRecord,
        ),
        (&[3, 0, 1, 0, 3, 5, 0, 1, 0, 2, 0, 0], 1, Cause::WrongRecord),
        (
            &[3, 0, 1, 0, 3, 5, 0, 255, 255, 2, 0, 0, 1, 0, 0],
            1,
            Cause::CutShort,
        ),
        // another instance, none, another kind, another number
        (
            &[3, 0, 1, 0, 3, 5, 0, 4, 0, 2, 0, 1, 1, 0, 0],
            1,
            Cause::NotNext,
        ),
        (
            &[3, 0, 1, 0, 3, 5, 0, 4, 0, 2, 0, 255, 1, 0, 0],
            1,
            Cause::NotNext,
        ),
        (
            &[3, 0, 1, 0, 3, 5, 0, 4, 0, 2, 0, 0, 2, 0, 0],
            1,
            Cause::NotNext,
        ),
        (
            &[3, 0, 1, 0, 3, 5, 0, 4, 0, 2, 0, 0, 1, 0, 1],
            1,
            Cause::NotNext,
        ),
        // an instance that has finished
        (
            &[
                3, 0, 1, 0, 3, 5, 0, 4, 0, 2, 0, 0, 1, 0, 0, 4, 0, 2, 0, 0, 1, 0, 0,
            ],
            2,
            Cause::NotNext,
        ),
        // the text is received before it is sent
        (
            &[3, 0, 1, 0, 3, 5, 0, 4, 0, 2, 0, 1, 2, 0, 0],
            1,
            Cause::MustWait(0),
        ),
        // an end that counts one more
        (
            &[3, 0, 1, 0, 3, 5, 0, 2, 0, 3, 0, 1, 0],
            1,
            Cause::WrongCount,
        ),
        // a high byte
        (
            &[3, 0, 1, 0, 3, 5, 0, 2, 0, 3, 0, 0, 1],
            1,
            Cause::WrongCount,
        ),
        // bytes after the end, and a record
        (
            &[3, 0, 1, 0, 3, 5, 0, 2, 0, 3, 0, 0, 0, 9],
            2,
            Cause::CutShort,
        ),
        (
            &[3, 0, 1, 0, 3, 5, 0, 2, 0, 3, 0, 0, 0, 2, 0, 3, 0, 0, 0],
            2,
            Cause::WrongRecord,
        ),
    ];
    for (log, record, cause) in cases {
        assert_eq!(rt; checked(log), refused(record, cause));
    }
}

#[test]
fn every_cut_of_a_log_is_cut_short(rt: HostRuntime) {
    for length in 0..LATE.len() {
        let records = if length < 7 { 0 } else { 1 + (length - 7) / 8 };
        assert_eq!(rt; checked(&LATE[..length]), refused(records, Cause::CutShort));
    }
}

#[test]
fn a_medium_may_make_an_event_wait(rt: HostRuntime) {
    let chart = Table::new(&LENGTHS, &EVENTS);
    // nothing is sent, so the text waits for its receiver
    let (answer, _) = check_log(&chart, Narrow::new(0, Free), &LATE);
    assert_eq!(rt; answer, refused(1, Cause::MustWait(1)));
    let (answer, _) = check_log(&chart, Narrow::new(1, Free), &LATE);
    assert_eq!(rt; answer, Ok(Verdict::Full));
}

#[test]
fn the_chart_without_instances_has_one_log(rt: HostRuntime) {
    let chart = Table::new(&[], &[]);
    let (answer, _) = check_log(&chart, Free, &[3, 0, 1, 0, 0, 0, 0, 2, 0, 3, 0, 0, 0]);
    assert_eq!(rt; answer, Ok(Verdict::Full));
    let (answer, _) = check_log(&chart, Free, &[3, 0, 1, 0, 0, 0, 0, 4, 0, 2, 0, 0, 0, 0, 0]);
    assert_eq!(rt; answer, refused(1, Cause::NotNext));
}

#[test]
fn a_spoiled_chart_is_told_first(rt: HostRuntime) {
    let action = [Event {
        kind: 4,
        peer: 255,
        number: 0,
    }];
    let fault = Fault {
        number: 14,
        instance: 0,
        event: 0,
        layer: 1,
    };
    let chart = Table::new(&[1], &action);
    for log in [
        &LATE[..0],
        &LATE[..],
        &[3, 0, 1, 0, 0, 0, 0, 2, 0, 3, 0, 0, 0],
    ] {
        let (answer, _) = check_log(&chart, Free, log);
        assert_eq!(rt; answer, Err(Refusal::Spoiled(fault)));
    }
}
