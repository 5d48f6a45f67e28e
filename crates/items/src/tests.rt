use crate::{Item, Parser, survey};
use std::alloc::{AllocError, Global};
use std::test::Fail;
use words::Fault;

// How many instances and events a text has, of at most 255 each, or its fault.
fn count(text: &[u8]) -> Result<(u8, u8), Fault> {
    let (_, mut parser) = Parser::begin(text)?;
    let mut instances = 0u8;
    let mut events = 0u8;
    // no text has more items than bytes
    for _ in text {
        match parser.next()? {
            Item::Instance(_) => instances = instances.saturating_add(1),
            Item::Event(_) => events = events.saturating_add(1),
            Item::InstanceEnd => {}
            Item::End => break,
        }
    }
    Ok((instances, events))
}

#[test]
fn texts_have_their_instances_and_events(rt: HostRuntime) {
    let cases: [(&[u8], u8, u8); 5] = [
        (b"msc c;endmsc;", 0, 0),
        (b"msc c ; instance a ; endinstance ; endmsc ;", 1, 0),
        (
            b"\r\n msc\tc;instance a;out m to env;endinstance;endmsc;\n",
            1,
            1,
        ),
        (
            b"msc c;instance a;in m from b;action a;endinstance;instance b;out m to a;endinstance;endmsc;",
            2,
            3,
        ),
        // an instance named twice and an unknown peer are not the parser's
        (
            b"msc c;instance a;endinstance;instance a;out m to x;endinstance;endmsc;",
            2,
            1,
        ),
    ];
    for (text, instances, events) in cases {
        assert_eq!(rt; count(text), Ok((instances, events)));
    }
}

#[test]
fn texts_are_refused_at_their_byte(rt: HostRuntime) {
    let cases: [(&[u8], u8, usize); 18] = [
        // the text ends early
        (b"", 24, 0),
        (b"m", 23, 0),
        (b"msc", 24, 3),
        (b"msc c", 24, 5),
        (b"msc c;", 24, 6),
        (b"msc c;instance a;out m to b", 24, 27),
        // a byte that is not allowed
        (b"#", 21, 0),
        (b"msc c;endmsc;#", 21, 13),
        (b"msc c,d;", 21, 5),
        // a word of over 16 bytes
        (b"msc abcdefghijklmnop;endmsc;", 0, 0),
        (b"msc abcdefghijklmnopq;endmsc;", 22, 20),
        // another word is wanted, or a semicolon
        (b";", 23, 0),
        (b"msc msc;", 23, 4),
        (b"msc c d;", 23, 6),
        (b"msc c;instance a;in m to b;", 23, 22),
        (b"msc c;action a;", 23, 6),
        // something stands after the end
        (b"msc c;endmsc; ;", 28, 14),
        (b"msc c;endmsc;a", 28, 13),
    ];
    for (text, number, byte) in cases {
        let said = match count(text) {
            Ok((_, _)) => (0, 0),
            Err(fault) => (u8::from(fault.cause), fault.byte),
        };
        assert_eq!(rt; said, (number, byte));
    }
}

// What a text comes to: its instances and events, or the number and the byte of its fault.
fn sized(text: &[u8]) -> Result<(usize, usize), (u8, usize)> {
    match survey(text) {
        Ok(size) => Ok((size.instances, size.events)),
        Err(fault) => Err((u8::from(fault.cause), fault.byte)),
    }
}

#[test]
fn instances_are_named_once(rt: HostRuntime) {
    assert_eq!(rt;
        sized(b"msc c;instance a;action a;endinstance;instance b;endinstance;endmsc;"),
        Ok((2, 1))
    );
    // the second name is told, also where the semicolon after it is missing
    assert_eq!(rt;
        sized(b"msc c;instance a;endinstance;instance a;endinstance;endmsc;"),
        Err((25, 38))
    );
    assert_eq!(rt;
        sized(b"msc c;instance a;endinstance;instance a b"),
        Err((25, 38))
    );
    // a fault before it is told first
    assert_eq!(rt;
        sized(b"msc c;instance a;action;endinstance;instance a;"),
        Err((23, 23))
    );
}

// A text of so many instances without events, the last of which is named as the one before it.
fn many(heap: Global, instances: usize) -> Result<Vec<u8>, AllocError> {
    let mut text = Vec::new(heap);
    text.extend_from_slice(b"msc c;")?;
    for i in 0..instances {
        let number = i.min(instances.saturating_sub(2));
        text.extend_from_slice(b"instance ")?;
        for place in [1000, 100, 10, 1] {
            text.push(b'0' + (number / place % 10) as u8)?;
        }
        text.extend_from_slice(b";endinstance;")?;
    }
    text.extend_from_slice(b"endmsc;")?;
    Ok(text)
}

#[test]
fn names_past_the_index_are_found(rt: HostRuntime) -> Result<(), Fail> {
    // each instance takes 26 bytes, and its name stands 9 bytes from its start
    for instances in [2, 33, 4096, 4097, 4098, 4100] {
        let text = many(rt.alloc(), instances)?;
        assert_eq!(rt;
            sized(text.as_slice()),
            Err((25, 6 + 26 * (instances - 1) + 9))
        );
    }
    Ok(())
}
