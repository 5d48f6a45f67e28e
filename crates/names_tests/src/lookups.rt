use crate::cases::check_found;
use names::{Names, Refusal};

#[test]
fn no_name(rt: HostRuntime) {
    let names = Names::new();
    assert_eq!(rt; names.len(), 0);
    assert_eq!(rt; names.find(b""), None);
    assert_eq!(rt; names.find(b"bus"), None);
}

#[test]
fn names_in_any_order(rt: HostRuntime) {
    check_found(&rt, &[b"log", b"bus", b"siren", b"keypad"]);
    check_found(&rt, &[b"bus", b"keypad", b"log", b"siren"]);
    check_found(&rt, &[b"siren", b"log", b"keypad", b"bus"]);
}

#[test]
fn names_that_begin_others(rt: HostRuntime) {
    check_found(&rt, &[b"", b"k", b"ke", b"key", b"keypad"]);
    check_found(&rt, &[b"keypad", b"key", b"ke", b"k", b""]);
    check_found(&rt, &[b"key", b"keypad", b"", b"ke", b"k"]);
}

#[test]
fn lowest_and_highest_bytes(rt: HostRuntime) {
    check_found(
        &rt,
        &[
            &[0],
            &[255],
            &[],
            &[255, 255],
            &[0, 0],
            &[0, 255],
            &[255, 0],
        ],
    );
    check_found(&rt, &[&[127], &[128], &[127, 255], &[128, 0]]);
}

#[test]
fn upper_and_lower_case(rt: HostRuntime) {
    check_found(&rt, &[b"Bus", b"bus", b"BUS"]);
}

#[test]
fn a_name_once_more(rt: HostRuntime) {
    let mut names = Names::new();
    assert_eq!(rt; names.note(b"bus", 65535), Ok(()));
    assert_eq!(rt; names.note(b"log", 0), Ok(()));
    assert_eq!(rt; names.note(b"bus", 7), Err(Refusal::Repeated));
    assert_eq!(rt; names.len(), 2);
    assert_eq!(rt; names.find(b"bus"), Some(65535));
    assert_eq!(rt; names.find(b"log"), Some(0));
    assert_eq!(rt; names.find(b"bu"), None);
    assert_eq!(rt; names.find(b"bus1"), None);
}
