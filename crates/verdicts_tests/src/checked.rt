use verdicts::{LogAnswer, check_log_text};

const LATE: &[u8] =
    b"msc late;instance log;out text to bus;endinstance;instance bus;in text from log;in ring from siren;endinstance;instance siren;out ring to bus;action sound;endinstance;endmsc;";

const HEAD: [u8; 7] = [3, 0, 1, 0, 3, 5, 0];

// The verdict on a log that is not refused.
fn verdict(word: u32) -> LogAnswer {
    LogAnswer {
        word,
        number: 0,
        byte: 0,
        index: 0,
        instance: 0,
    }
}

fn refused(number: u32, index: usize, instance: usize) -> LogAnswer {
    LogAnswer {
        word: 4,
        number,
        byte: 0,
        index,
        instance,
    }
}

#[test]
fn logs_of_late(rt: HostRuntime) {
    let cases: [(&[u8], LogAnswer); 17] = [
        // full, in two orders
        (
            &[
                3, 0, 1, 0, 3, 5, 0, 4, 0, 2, 0, 0, 1, 0, 0, 4, 0, 2, 0, 1, 2, 0, 0, 4, 0, 2, 0, 2,
                1, 1, 0, 4, 0, 2, 0, 1, 2, 1, 0, 4, 0, 2, 0, 2, 3, 0, 0, 2, 0, 3, 0, 5, 0,
            ],
            verdict(1),
        ),
        (
            &[
                3, 0, 1, 0, 3, 5, 0, 4, 0, 2, 0, 2, 1, 1, 0, 4, 0, 2, 0, 2, 3, 0, 0, 4, 0, 2, 0, 0,
                1, 0, 0, 4, 0, 2, 0, 1, 2, 0, 0, 4, 0, 2, 0, 1, 2, 1, 0, 2, 0, 3, 0, 5, 0,
            ],
            verdict(1),
        ),
        // a part, with and without entries
        (&[3, 0, 1, 0, 3, 5, 0, 2, 0, 3, 0, 0, 0], verdict(2)),
        (
            &[
                3, 0, 1, 0, 3, 5, 0, 4, 0, 2, 0, 0, 1, 0, 0, 2, 0, 3, 0, 1, 0,
            ],
            verdict(2),
        ),
        // it ends early: before and in the head, before and in an entry, in the end, and after it
        (&[], refused(51, 0, 0)),
        (&[3, 0, 1, 0, 3, 5], refused(51, 0, 0)),
        (&HEAD, refused(51, 1, 0)),
        (
            &[3, 0, 1, 0, 3, 5, 0, 4, 0, 2, 0, 0, 1, 0],
            refused(51, 1, 0),
        ),
        (
            &[3, 0, 1, 0, 3, 5, 0, 4, 0, 2, 0, 0, 1, 0, 0, 2, 0, 3, 0, 1],
            refused(51, 2, 0),
        ),
        (
            &[3, 0, 1, 0, 3, 5, 0, 2, 0, 3, 0, 0, 0, 9],
            refused(51, 2, 0),
        ),
        // no record, one that may not stand there, and one after the end
        (&[0, 0, 9, 0], refused(52, 0, 0)),
        (&[2, 0, 3, 0, 0, 0], refused(52, 0, 0)),
        (
            &[3, 0, 1, 0, 3, 5, 0, 2, 0, 3, 0, 0, 0, 2, 0, 3, 0, 0, 0],
            refused(52, 2, 0),
        ),
        // of another chart
        (&[3, 0, 1, 0, 3, 4, 0], refused(53, 0, 0)),
        // not the next event: of no instance, of another number
        (
            &[3, 0, 1, 0, 3, 5, 0, 4, 0, 2, 0, 3, 1, 0, 0],
            refused(54, 1, 0),
        ),
        // it must wait, for the siren
        (
            &[
                3, 0, 1, 0, 3, 5, 0, 4, 0, 2, 0, 0, 1, 0, 0, 4, 0, 2, 0, 1, 2, 0, 0, 4, 0, 2, 0, 1,
                2, 1, 0,
            ],
            refused(43, 3, 2),
        ),
        // the end counts another number
        (&[3, 0, 1, 0, 3, 5, 0, 2, 0, 3, 0, 1, 0], refused(55, 1, 0)),
    ];
    for (log, answer) in cases {
        assert_eq!(rt; check_log_text(LATE, log), answer);
    }
}

#[test]
fn texts_that_are_refused(rt: HostRuntime) {
    let cases: [(&[u8], u32, usize); 4] = [
        (b"", 24, 0),
        (b"msc slip;\ninstance a;\n  send m to b;\n", 23, 24),
        (b"msc c;instance a;out m to b;endinstance;endmsc;", 26, 26),
        (
            b"msc c;instance a;action x;out m to b;endinstance;instance b;endinstance;endmsc;",
            18,
            26,
        ),
    ];
    for (text, number, byte) in cases {
        let answer = LogAnswer {
            word: 3,
            number,
            byte,
            index: 0,
            instance: 0,
        };
        assert_eq!(rt; check_log_text(text, &HEAD), answer);
    }
}

#[test]
fn a_chart_that_gets_stuck_has_logs_that_are_parts(rt: HostRuntime) {
    let cross: &[u8] =
        b"msc cross;instance a;in p from b;out q to b;endinstance;instance b;in q from a;out p to a;endinstance;endmsc;";
    let cases: [(&[u8], LogAnswer); 2] = [
        (&[3, 0, 1, 0, 2, 4, 0, 2, 0, 3, 0, 0, 0], verdict(2)),
        (
            &[3, 0, 1, 0, 2, 4, 0, 4, 0, 2, 0, 0, 2, 0, 0],
            refused(43, 1, 1),
        ),
    ];
    for (log, answer) in cases {
        assert_eq!(rt; check_log_text(cross, log), answer);
    }
}
