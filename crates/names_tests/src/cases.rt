use names::Names;
use std::process::Abort;

// Notes the names in turn, each with its place plus 100, and finds each.
pub(crate) fn check_found(rt: &impl Abort, listed: &[&[u8]]) {
    let mut names = Names::new();
    for (name, number) in listed.iter().zip(100u16..) {
        assert_eq!(rt; names.find(name), None);
        assert_eq!(rt; names.note(name, number), Ok(()));
        assert_eq!(rt; names.find(name), Some(number));
    }
    assert_eq!(rt; names.len(), listed.len());
    for (name, number) in listed.iter().zip(100u16..) {
        assert_eq!(rt; names.find(name), Some(number));
    }
}
