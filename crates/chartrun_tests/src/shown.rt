use judged::judged_lines;
use std::alloc::Global;
use std::process::Abort;
use std::test::Fail;

// Compares what is printed of each text with what stands beside it.
pub(crate) fn check_texts(
    rt: &impl Abort,
    heap: Global,
    cases: &[(&[u8], &[u8])],
) -> Result<(), Fail> {
    for (text, lines) in cases {
        assert_eq!(rt; judged_lines(heap, text)?.as_slice(), *lines);
    }
    Ok(())
}
