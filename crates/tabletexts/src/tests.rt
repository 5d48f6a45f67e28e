use crate::{Unread, read, read_byte};
use charts::{Event, Kind, Peer};
use std::test::Fail;

#[test]
fn an_empty_text_is_an_empty_table(rt: HostRuntime) -> Result<(), Fail> {
    let texts: [&[u8]; 3] = [b"", b"\n", b"\n\n\n"];
    for text in texts {
        let table = read(rt.alloc(), text)?;
        assert!(rt; table.lengths.is_empty());
        assert!(rt; table.events.is_empty());
    }
    Ok(())
}

#[test]
fn a_table_is_read(rt: HostRuntime) -> Result<(), Fail> {
    let table = read(rt.alloc(), b"1 0 65535\n1 255 17\n\n03 0 0065535")?;
    assert_eq!(rt; table.lengths.as_slice(), [1, 0, 65535].as_slice());
    let events = [
        Event::new(Kind::Output, Peer::Environment, 17),
        Event::new(Kind::Action, Peer::Instance(0), 65535),
    ];
    assert_eq!(rt; table.events.as_slice(), events.as_slice());
    Ok(())
}

#[test]
fn the_first_unreadable_line_is_told(rt: HostRuntime) {
    let cases: [(&[u8], usize); 13] = [
        (b" 1", 1),
        (b"1  2\n1 2\n", 1),
        (b"1 2 \n1 2 3", 1),
        (b"65536\n", 1),
        (b"1 +2", 1),
        (b"1 2x\n", 1),
        (b"\n1 2", 2),
        (b"\n\n1 2 3 4\n1", 3),
        (b"2\n1 0 1\n256 0 1\n", 3),
        (b"2\n1 0 1\n1 256 1\n", 3),
        (b"2\n1 0 1\n1 0 65536\n", 3),
        (b"2\n1 0 1\r\n", 2),
        (b"2\n1\t0 1\n", 2),
    ];
    for (text, line) in cases {
        assert_eq!(rt; read(rt.alloc(), text).err(), Some(Unread::Line(line)));
    }
}

#[test]
fn a_byte_is_at_most_255(rt: HostRuntime) {
    assert_eq!(rt; read_byte(b"0255"), Some(255));
    assert_eq!(rt; read_byte(b"256"), None);
}
