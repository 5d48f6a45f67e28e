use crate::cases::check_line;
use crate::late::{Tables, late_tables};
use charts::Rule;
use lines::{LINE_ROOM, refusal_line};
use runs::Verdict;
use std::process::Abort;
use words::{Cause, Fault};

fn check_heading(rt: &impl Abort, tables: Tables, line: &[u8]) {
    let Some(listing) = tables.listing() else {
        panic!(rt; "no listing");
    };
    let mut buffer = [7; LINE_ROOM];
    let written = listing.heading_line(&mut buffer);
    check_line(rt, written, &buffer, line);
}

#[test]
fn headings(rt: HostRuntime) {
    check_heading(&rt, late_tables(), b"chart late 3 5\n");
    let mut fewer = late_tables();
    fewer.counts.instances = 1;
    fewer.counts.events = 2;
    check_heading(&rt, fewer, b"chart late 1 2\n");
}

fn check_event(
    rt: &impl Abort,
    tables: Tables,
    place: usize,
    instance: usize,
    index: usize,
    line: &[u8],
) {
    let Some(listing) = tables.listing() else {
        panic!(rt; "no listing");
    };
    let mut buffer = [7; LINE_ROOM];
    let written = listing.event_line(place, instance, index, &mut buffer);
    check_line(rt, written, &buffer, line);
}

#[test]
fn events(rt: HostRuntime) {
    let cases: [(usize, usize, usize, &[u8]); 12] = [
        (1, 0, 0, b"1 log out text\n"),
        (2, 0, 1, b"2 log out end\n"),
        (3, 1, 0, b"3 disp in end\n"),
        (4, 1, 1, b"4 disp in text\n"),
        (5, 1, 2, b"5 disp action show\n"),
        (0, 1, 2, b"0 disp action show\n"),
        (
            18446744073709551615,
            0,
            0,
            b"18446744073709551615 log out text\n",
        ),
        // no such event
        (10, 0, 2, b"10 log ? ?\n"),
        (1, 2, 0, b"1 idle ? ?\n"),
        (1, 1, 18446744073709551615, b"1 disp ? ?\n"),
        // no such instance
        (1, 3, 0, b"1 ? ? ?\n"),
        (4096, 18446744073709551615, 0, b"4096 ? ? ?\n"),
    ];
    for (place, instance, index, line) in cases {
        check_event(&rt, late_tables(), place, instance, index, line);
    }
}

#[test]
fn names_that_are_not_known(rt: HostRuntime) {
    // no row for the number of a message, or of an action
    let mut nameless = late_tables();
    nameless.counts.messages = 1;
    nameless.counts.actions = 0;
    check_event(&rt, nameless, 1, 0, 0, b"1 log out text\n");
    check_event(&rt, nameless, 1, 0, 1, b"1 log out ?\n");
    check_event(&rt, nameless, 1, 1, 0, b"1 disp in ?\n");
    check_event(&rt, nameless, 1, 1, 2, b"1 disp action ?\n");
    // a chart that breaks a rule has no events
    let mut spoiled = late_tables();
    spoiled.lengths = [2, 2, 0];
    check_event(&rt, spoiled, 1, 0, 0, b"1 log ? ?\n");
}

fn check_verdict(rt: &impl Abort, verdict: Verdict, ring: &[u8], line: &[u8]) {
    let tables = late_tables();
    let Some(listing) = tables.listing() else {
        panic!(rt; "no listing");
    };
    let mut buffer = [7; LINE_ROOM];
    let written = listing.verdict_line(verdict, ring, &mut buffer);
    check_line(rt, written, &buffer, line);
}

#[test]
fn verdicts(rt: HostRuntime) {
    let cases: [(Verdict, &[u8], &[u8]); 9] = [
        (Verdict::Runs(0), &[], b"runs\n"),
        (Verdict::Runs(2), &[0, 1], b"runs\n"),
        (Verdict::Stuck(0), &[], b"stuck\n"),
        (Verdict::Stuck(2), &[0, 1], b"stuck log disp\n"),
        (Verdict::Stuck(1), &[2], b"stuck idle\n"),
        // the whole buffer of a verdict
        (Verdict::Stuck(2), &[1, 0, 2, 2], b"stuck disp log\n"),
        (Verdict::Stuck(0), &[1], b"stuck\n"),
        // a ring of fewer bytes than the verdict says
        (Verdict::Stuck(3), &[1, 2], b"stuck disp idle\n"),
        // no such instances
        (Verdict::Stuck(3), &[3, 0, 255], b"stuck ? log ?\n"),
    ];
    for (verdict, ring, line) in cases {
        check_verdict(&rt, verdict, ring, line);
    }
}

#[test]
fn refusals(rt: HostRuntime) {
    let cases: [(Cause, usize, &[u8]); 5] = [
        (Cause::WrongWord, 17, b"refused 23 at 17\n"),
        (Cause::BadByte, 0, b"refused 21 at 0\n"),
        (Cause::Chart(Rule::Kind), 9, b"refused 14 at 9\n"),
        (Cause::Chart(Rule::Poll), 4096, b"refused 33 at 4096\n"),
        (
            Cause::ShortTable,
            18446744073709551615,
            b"refused 27 at 18446744073709551615\n",
        ),
    ];
    for (cause, byte, line) in cases {
        let mut buffer = [7; LINE_ROOM];
        let written = refusal_line(Fault::at(cause, byte), &mut buffer);
        check_line(&rt, written, &buffer, line);
    }
}
