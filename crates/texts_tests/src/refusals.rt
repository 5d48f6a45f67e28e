use crate::cases::{check_refused, check_rows};

// A text without a fault: two instances with one message between them and an action.
const HOP: &[u8] =
    b"msc hop;instance a;out m to b;action x;endinstance;instance b;in m from a;endinstance;endmsc;";

#[test]
fn each_refusal_at_its_bytes(rt: HostRuntime) {
    let cases: [(&[u8], u8, usize); 49] = [
        // a byte that is not allowed, from the first to one after the end
        (b"#", 21, 0),
        (b"m#sc c;endmsc;", 21, 1),
        (b"msc c;endmsc;#", 21, 13),
        (b"msc c;endmsc; \x80", 21, 14),
        // a word of over 16 bytes
        (b"abcdefghijklmnopq", 22, 16),
        (b"msc abcdefghijklmnopq;endmsc;", 22, 20),
        (b"msc c;instance a;action abcdefghijklmnopqr;", 22, 40),
        (b"msc c;endmsc;abcdefghijklmnopq", 22, 29),
        // another word is wanted, or a semicolon
        (b"x", 23, 0),
        (b";", 23, 0),
        (b"MSC c;endmsc;", 23, 0),
        (b"msc;", 23, 3),
        (b"msc env;endmsc;", 23, 4),
        (b"msc c c;endmsc;", 23, 6),
        (b"msc c;instance ;", 23, 15),
        (b"msc c;instance to;", 23, 15),
        (b"msc c;instance a;endmsc;", 23, 17),
        (b"msc c;instance a;instance b;", 23, 17),
        (b"msc c;instance a;out m from b;", 23, 23),
        (b"msc c;instance a;in m to b;", 23, 22),
        (b"msc c;instance a;out m to to;", 23, 26),
        (b"msc c;instance a;out m to ;", 23, 26),
        (b"msc c;instance a;action env;", 23, 24),
        (b"msc c;instance a;action a b;", 23, 26),
        (b"msc c;instance a;endinstance a;", 23, 29),
        (b"msc c;endinstance;", 23, 6),
        (b"msc c;endmsc endmsc;", 23, 13),
        // the text ends early, inside each kind of word
        (b"", 24, 0),
        (b"   ", 24, 3),
        (b"\r\n\t ", 24, 4),
        (b"msc", 24, 3),
        (b"msc c", 24, 5),
        (b"msc c;", 24, 6),
        (b"msc c;instance", 24, 14),
        (b"msc c;instance a;out", 24, 20),
        (b"msc c;instance a;out m", 24, 22),
        (b"msc c;instance a;out m to", 24, 25),
        (b"msc c;instance a;out m to e", 24, 27),
        (b"msc c;instance a;action x", 24, 25),
        (b"msc c;instance a;endinstance", 24, 28),
        (b"msc c;endmsc", 24, 12),
        // a word that is none yet where the text ends
        (b"ms", 23, 0),
        (b"msc c;instance a;ou", 23, 17),
        (b"msc c;instance a;endinstanc", 23, 17),
        (b"msc c;endms", 23, 6),
        // after the end
        (b"msc c;endmsc;;", 28, 13),
        (b"msc c;endmsc; a", 28, 14),
        (b"msc c;endmsc;\nmsc c;endmsc;", 28, 14),
        (b"msc c;endmsc;endmsc;", 28, 13),
    ];
    for (text, number, byte) in cases {
        check_refused(&rt, text, number, byte);
    }
}

#[test]
fn names_peers_and_messages(rt: HostRuntime) {
    let cases: [(&[u8], u8, usize); 16] = [
        // an instance is named twice
        (
            b"msc c;instance a;endinstance;instance a;endinstance;endmsc;",
            25,
            38,
        ),
        (
            b"msc c;instance a;endinstance;instance b;endinstance;instance a",
            25,
            61,
        ),
        // a peer is unknown: the first one in the text, also where its instance comes later under another name
        (b"msc c;instance a;out m to b;endinstance;endmsc;", 26, 26),
        (
            b"msc c;instance a;action x;in m from A;out m to b;endinstance;endmsc;",
            26,
            36,
        ),
        (
            b"msc c;instance a;out m to a;in m from c;endinstance;endmsc;",
            26,
            38,
        ),
        // a second output of a message, and a second input
        (
            b"msc c;instance a;out m to a;out m to a;in m from a;endinstance;endmsc;",
            17,
            28,
        ),
        (
            b"msc c;instance a;in m from a;in m from a;out m to a;endinstance;endmsc;",
            17,
            29,
        ),
        (
            b"msc c;instance a;out m to b;endinstance;instance b;in m from a;action x; out m to b;endinstance;endmsc;",
            17,
            73,
        ),
        // no match: an output alone, an input alone, on another instance, and a message with the environment that has two events
        (b"msc c;instance a;out m to a;endinstance;endmsc;", 18, 17),
        (
            b"msc c;instance a;action m;in m from a;endinstance;endmsc;",
            18,
            26,
        ),
        (
            b"msc c;instance a;out m to b;endinstance;instance b;endinstance;instance d;in m from a;endinstance;endmsc;",
            18,
            17,
        ),
        (
            b"msc c;instance a;out m to env;in m from env;endinstance;endmsc;",
            18,
            17,
        ),
        (
            b"msc c;instance a;in m from env;out m to a;endinstance;endmsc;",
            18,
            17,
        ),
        // the second of a message before a message without a match
        (
            b"msc c;instance a;out n to a;out m to a;out m to a;in m from a;endinstance;endmsc;",
            17,
            39,
        ),
        // an unknown peer before both
        (
            b"msc c;instance a;out m to a;out m to a;in m from b;endinstance;endmsc;",
            26,
            49,
        ),
        // a message and an action of one name are two
        (
            b"msc c;instance a;out m to a;action m;endinstance;endmsc;",
            18,
            17,
        ),
    ];
    for (text, number, byte) in cases {
        check_refused(&rt, text, number, byte);
    }
}

#[test]
fn two_faults_in_either_order(rt: HostRuntime) {
    let cases: [(&[u8], u8, usize); 14] = [
        // in the order of the text
        (b"msc c;#;x;", 21, 6),
        (b"msc c;x;#;", 23, 6),
        (b"msc c;instance a;endinstance;instance a;#", 25, 38),
        (b"msc c;instance a#endinstance;instance a;", 21, 16),
        (b"msc c;instance a;endinstance;instance a", 25, 38),
        (b"msc c;instance a;endinstance;instance a#", 21, 39),
        (b"msc c;endmsc;x#", 21, 14),
        (b"msc c;endmsc;x #", 28, 13),
        (b"msc abcdefghijklmnop#", 21, 20),
        (b"msc abcdefghijklmnopq#", 22, 20),
        // a word's form before its use
        (b"foo#", 21, 3),
        (b"foofoofoofoofoofoo", 22, 16),
        // a peer that is unknown and a fault after it, or before it
        (b"msc c;instance a;out m to b;endinstance;endmsc", 24, 46),
        (b"msc c;instance a;out m from b;", 23, 23),
    ];
    for (text, number, byte) in cases {
        check_refused(&rt, text, number, byte);
    }
}

// What stands alone in a text: nothing, or a byte.
fn said_of(byte: u8) -> (u8, usize) {
    match char::from(byte) {
        'a'..='z' | 'A'..='Z' | '0'..='9' | '_' | ';' => (23, 0),
        ' ' | '\t' | '\n' | '\r' => (24, 1),
        _ => (21, 0),
    }
}

#[test]
fn each_byte_alone(rt: HostRuntime) {
    for byte in 0..=255u8 {
        let (number, at) = said_of(byte);
        check_refused(&rt, &[byte], number, at);
    }
}

#[test]
fn each_table_one_row_too_short(rt: HostRuntime) {
    check_rows(&rt, HOP, [2, 3, 2, 1, 1], Ok([2, 3, 1, 1]));
    check_rows(&rt, HOP, [40, 40, 40, 40, 40], Ok([2, 3, 1, 1]));
    for rows in [
        [1, 3, 2, 1, 1],
        [2, 2, 2, 1, 1],
        [2, 3, 1, 1, 1],
        [2, 3, 2, 0, 1],
        [2, 3, 2, 1, 0],
        [0, 0, 0, 0, 0],
    ] {
        check_rows(&rt, HOP, rows, Err((27, 0)));
    }
    // a table that is too short is told before an unknown peer, and after a fault in the words
    let unknown = b"msc c;instance a;out m to b;endinstance;endmsc;";
    check_rows(&rt, unknown, [1, 1, 1, 0, 0], Err((27, 0)));
    check_rows(&rt, unknown, [1, 1, 1, 1, 0], Err((26, 26)));
    check_rows(
        &rt,
        b"msc c;instance a;endinstance;",
        [0, 0, 0, 0, 0],
        Err((24, 29)),
    );
    check_rows(&rt, b"msc c;endmsc;", [0, 0, 0, 0, 0], Ok([0, 0, 0, 0]));
}
