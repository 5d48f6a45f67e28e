use crate::{End, Entry, Flaw, Head, Record};

#[test]
fn records_are_read(rt: HostRuntime) {
    let cases: [(&[u8], Record, usize); 5] = [
        (
            &[3, 0, 1, 0, 32, 0, 16],
            Record::Head(Head {
                width: 32,
                events: 4096,
            }),
            7,
        ),
        (
            &[4, 0, 2, 0, 1, 2, 255, 15],
            Record::Entry(Entry {
                instance: 1,
                kind: 2,
                number: 4095,
            }),
            8,
        ),
        (&[2, 0, 3, 0, 1, 2], Record::End(End { count: 513 }), 6),
        // what comes after the record is left
        (
            &[2, 0, 3, 0, 255, 255, 9],
            Record::End(End { count: 65535 }),
            6,
        ),
        // no kind of an event is refused here
        (
            &[4, 0, 2, 0, 255, 9, 0, 0, 3, 0],
            Record::Entry(Entry {
                instance: 255,
                kind: 9,
                number: 0,
            }),
            8,
        ),
    ];
    for (bytes, record, length) in cases {
        assert_eq!(rt; Record::read(bytes), Ok((record, length)));
    }
}

#[test]
fn no_record_is_read(rt: HostRuntime) {
    let cases: [(&[u8], Flaw); 14] = [
        (&[], Flaw::CutShort),
        (&[3, 0, 1], Flaw::CutShort),
        (&[3, 0, 1, 0], Flaw::CutShort),
        (&[3, 0, 1, 0, 1, 2], Flaw::CutShort),
        (&[255, 255, 1, 0, 1, 2, 0], Flaw::CutShort),
        // cut short comes before a wrong kind
        (&[1, 0, 9, 0], Flaw::CutShort),
        (&[0, 0, 1, 0], Flaw::WrongForm),
        (&[2, 0, 1, 0, 1, 2], Flaw::WrongForm),
        (&[4, 0, 1, 0, 1, 2, 0, 0], Flaw::WrongForm),
        (&[3, 0, 2, 0, 1, 2, 0], Flaw::WrongForm),
        (&[3, 0, 3, 0, 1, 2, 0], Flaw::WrongForm),
        (&[2, 0, 4, 0, 1, 2], Flaw::WrongForm),
        (&[2, 0, 0, 0, 1, 2], Flaw::WrongForm),
        // a number has its high byte too
        (&[2, 0, 3, 1, 1, 2], Flaw::WrongForm),
    ];
    for (bytes, flaw) in cases {
        assert_eq!(rt; Record::read(bytes), Err(flaw));
    }
}

#[test]
fn what_is_written_is_read(rt: HostRuntime) {
    for number in [0u16, 1, 255, 256, 4095, 65535] {
        let head = Head {
            width: 7,
            events: number,
        };
        assert_eq!(rt; Record::read(&head.to_bytes()), Ok((Record::Head(head), 7)));
        let entry = Entry {
            instance: 3,
            kind: 1,
            number,
        };
        assert_eq!(rt;
            Record::read(&entry.to_bytes()),
            Ok((Record::Entry(entry), 8))
        );
        let end = End { count: number };
        assert_eq!(rt; Record::read(&end.to_bytes()), Ok((Record::End(end), 6)));
    }
}

#[test]
fn every_cut_of_a_record_is_cut_short(rt: HostRuntime) {
    let bytes = Entry {
        instance: 3,
        kind: 1,
        number: 258,
    }
    .to_bytes();
    assert_eq!(rt; bytes, [4, 0, 2, 0, 3, 1, 2, 1]);
    for length in 0..bytes.len() {
        assert_eq!(rt; Record::read(&bytes[..length]), Err(Flaw::CutShort));
    }
}
