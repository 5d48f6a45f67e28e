use lines::ShortBuffer;
use std::process::Abort;
use texts::{Name, Reading};
use words::Word;

// How many rows are in use, of instances, of events, of messages and of actions.
#[derive(Clone, Copy)]
pub(crate) struct Counts {
    pub(crate) instances: usize,
    pub(crate) events: usize,
    pub(crate) messages: usize,
    pub(crate) actions: usize,
}

// A reading of a text whose title stands there; none where no title can.
pub(crate) fn reading<'t>(text: &'t [u8], title: Name, counts: Counts) -> Option<Reading<'t>> {
    let start = title.start;
    let length = title.length;
    if start > text.len() || length > text.len() - start || length < 1 || length > 16 {
        return None;
    }
    let end = start + length;
    let bytes = &text[start..end];
    Some(Reading {
        text,
        title: Word { start, bytes },
        instances: counts.instances,
        events: counts.events,
        messages: counts.messages,
        actions: counts.actions,
    })
}

// The row of a name at its first place in the text.
pub(crate) fn row(text: &[u8], name: &[u8]) -> Name {
    let start = (0..text.len())
        .find(|start| text[*start..].starts_with(name))
        .unwrap_or(text.len());
    Name {
        start,
        length: name.len(),
    }
}

// Compares a line that was written into a buffer of sevens.
pub(crate) fn check_line(
    rt: &impl Abort,
    written: Result<usize, ShortBuffer>,
    buffer: &[u8],
    line: &[u8],
) {
    assert_eq!(rt; written, Ok(line.len()));
    assert!(rt; buffer.starts_with(line));
    assert!(rt; buffer.iter().skip(line.len()).all(|byte| *byte == 7));
}
