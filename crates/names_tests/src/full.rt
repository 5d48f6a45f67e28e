use names::{Names, Refusal};
use std::process::Abort;

// Names of two bytes, each the number of its place.
fn generated() -> [[u8; 2]; 4097] {
    let mut texts = [[0; 2]; 4097];
    for (text, number) in texts.iter_mut().zip(0u16..) {
        *text = number.to_be_bytes();
    }
    texts
}

// Finds each of 4,096 names with its place as its number, and no other.
fn check_each(rt: &impl Abort, names: &Names, texts: &[[u8; 2]; 4097]) {
    assert_eq!(rt; names.len(), 4096);
    for (text, number) in texts.iter().zip(0u16..4096) {
        assert_eq!(rt; names.find(text), Some(number));
    }
    assert_eq!(rt; names.find(&texts[4096]), None);
}

fn check_full<'t>(rt: &impl Abort, texts: &'t [[u8; 2]; 4097]) {
    let mut names = Names::new();
    for (text, number) in texts.iter().zip(0u16..4096) {
        assert_eq!(rt; names.note(text, number), Ok(()));
    }
    assert_eq!(rt; names.note(&texts[4096], 4096), Err(Refusal::Full));
    assert_eq!(rt; names.note(&texts[4095], 4096), Err(Refusal::Repeated));
    check_each(rt, &names, texts);
}

fn check_shuffled<'t>(rt: &impl Abort, texts: &'t [[u8; 2]; 4097]) {
    let mut names = Names::new();
    for step in 0..4096usize {
        // 1237 is odd, so each place comes once
        let place = step.wrapping_mul(1237) % 4096;
        assert_eq!(rt; names.note(&texts[place], place as u16), Ok(()));
    }
    check_each(rt, &names, texts);
}

#[test]
fn as_many_as_there_is_room_for(rt: HostRuntime) {
    check_full(&rt, &generated());
}

#[test]
fn noted_in_another_order(rt: HostRuntime) {
    check_shuffled(&rt, &generated());
}
