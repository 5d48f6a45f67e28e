use crate::cases::check_line;
use crate::late::late_tables;
use lines::{LINE_ROOM, ShortBuffer, refusal_line};
use runs::{Refusal, Verdict};
use std::process::Abort;
use words::{Cause, Fault};

#[test]
fn a_short_buffer_is_refused_by_44(rt: HostRuntime) {
    assert_eq!(rt; LINE_ROOM, 640);
    assert_eq!(rt; u8::from(ShortBuffer), 44);
    assert_eq!(rt; Refusal::from(ShortBuffer), Refusal::ShortBuffer);
}

// That each line refuses the buffer, and keeps its bytes.
fn check_refused(rt: &impl Abort, buffer: &mut [u8]) {
    let tables = late_tables();
    let Some(listing) = tables.listing() else {
        panic!(rt; "no listing");
    };
    let fault = Fault::at(Cause::WrongWord, 17);
    assert_eq!(rt; listing.heading_line(buffer), Err(ShortBuffer));
    assert_eq!(rt; listing.event_line(1, 0, 0, buffer), Err(ShortBuffer));
    assert_eq!(rt;
        listing.verdict_line(Verdict::Runs(0), &[], buffer),
        Err(ShortBuffer)
    );
    assert_eq!(rt; refusal_line(fault, buffer), Err(ShortBuffer));
    assert!(rt; buffer.iter().all(|byte| *byte == 7));
}

#[test]
fn short_buffers_keep_their_bytes(rt: HostRuntime) {
    check_refused(&rt, &mut []);
    check_refused(&rt, &mut [7]);
    check_refused(&rt, &mut [7; 639]);
}

// That each line is written into the buffer, which is of sevens.
fn check_taken(rt: &impl Abort, buffer: &mut [u8]) {
    let tables = late_tables();
    let Some(listing) = tables.listing() else {
        panic!(rt; "no listing");
    };
    let written = listing.heading_line(buffer);
    check_line(rt, written, buffer, b"chart late 3 5\n");
    buffer.fill(7);
    let written = listing.event_line(1, 0, 0, buffer);
    check_line(rt, written, buffer, b"1 log out text\n");
    buffer.fill(7);
    let written = listing.verdict_line(Verdict::Stuck(2), &[0, 1], buffer);
    check_line(rt, written, buffer, b"stuck log disp\n");
    buffer.fill(7);
    let written = refusal_line(Fault::at(Cause::WrongWord, 17), buffer);
    check_line(rt, written, buffer, b"refused 23 at 17\n");
}

#[test]
fn buffers_of_640_bytes_and_more_are_taken(rt: HostRuntime) {
    check_taken(&rt, &mut [7; 640]);
    check_taken(&rt, &mut [7; 641]);
    check_taken(&rt, &mut [7; 4096]);
}
