use crate::cases::{Counts, check_line, reading};
use charts::Event;
use lines::{LINE_ROOM, Listing};
use runs::Verdict;
use std::process::Abort;
use texts::Name;

// A name of 16 bytes, the first of which is one, too.
const TEXT: &[u8] = b"abcdefghijklmnop";

// A chart without events, whose title and instances all have names of this length.
fn check_named(rt: &impl Abort, length: usize, heading: &[u8], stuck: &[u8]) {
    let name = Name { start: 0, length };
    let counts = Counts {
        instances: 32,
        events: 0,
        messages: 0,
        actions: 0,
    };
    let Some(reading) = reading(TEXT, name, counts) else {
        panic!(rt; "no reading");
    };
    let instances = [name; 32];
    let events: [Event; 0] = [];
    let Some(listing) = Listing::of(reading, &[0; 32], &events, &instances, &[], &[]) else {
        panic!(rt; "no listing");
    };
    let mut buffer = [7; LINE_ROOM];
    let written = listing.heading_line(&mut buffer);
    check_line(rt, written, &buffer, heading);
    // a ring of more than 32 instances is cut
    for ring in [[31; 32].as_slice(), [0; 40].as_slice()] {
        let mut buffer = [7; LINE_ROOM];
        let written = listing.verdict_line(Verdict::Stuck(ring.len()), ring, &mut buffer);
        check_line(rt, written, &buffer, stuck);
    }
}

#[test]
fn names_of_1_and_16_bytes(rt: HostRuntime) {
    check_named(
        &rt,
        1,
        b"chart a 32 0\n",
        b"stuck a a a a a a a a a a a a a a a a a a a a a a a a a a a a a a a a\n",
    );
    let mut longest = [b'\n'; 550];
    longest[..5].copy_from_slice(b"stuck");
    for i in 0..32usize {
        let start = 5 + 17 * i;
        longest[start] = b' ';
        longest[start + 1..start + 17].copy_from_slice(TEXT);
    }
    check_named(&rt, 16, b"chart abcdefghijklmnop 32 0\n", &longest);
}
