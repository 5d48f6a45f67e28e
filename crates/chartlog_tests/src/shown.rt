use logged::logged_lines;
use std::alloc::Global;
use std::process::Abort;
use std::test::Fail;

// A text from a log to a bus, and a ring from a siren, which then sounds.
pub(crate) const TEXT: &[u8] = b"msc late;
instance log; out text to bus; endinstance;
instance bus; in text from log; in ring from siren; endinstance;
instance siren; out ring to bus; action sound; endinstance;
endmsc;
";

// The records of its logs.
pub(crate) const HEAD: &[u8] = &[3, 0, 1, 0, 3, 5, 0];

pub(crate) const TEXT_SENT: &[u8] = &[4, 0, 2, 0, 0, 1, 0, 0];

pub(crate) const TEXT_HERE: &[u8] = &[4, 0, 2, 0, 1, 2, 0, 0];

pub(crate) const RING_SENT: &[u8] = &[4, 0, 2, 0, 2, 1, 1, 0];

pub(crate) const RING_HERE: &[u8] = &[4, 0, 2, 0, 1, 2, 1, 0];

pub(crate) const SOUND: &[u8] = &[4, 0, 2, 0, 2, 3, 0, 0];

// An end of so many entries.
pub(crate) const END_0: &[u8] = &[2, 0, 3, 0, 0, 0];

pub(crate) const END_2: &[u8] = &[2, 0, 3, 0, 2, 0];

pub(crate) const END_5: &[u8] = &[2, 0, 3, 0, 5, 0];

// Compares what is printed of each log, whose records are given one after another, with what stands beside it.
pub(crate) fn check_logs(
    rt: &impl Abort,
    heap: Global,
    text: &[u8],
    cases: &[(&[&[u8]], &[u8])],
) -> Result<(), Fail> {
    for (records, lines) in cases {
        let mut log = Vec::new(heap);
        for record in *records {
            log.extend_from_slice(record)?;
        }
        assert_eq!(rt;
            logged_lines(heap, text, log.as_slice())?.as_slice(),
            *lines
        );
    }
    Ok(())
}
