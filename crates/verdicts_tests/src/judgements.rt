use std::process::Abort;
use verdicts::{Judgement, Member, judge_text};

const NO_MEMBER: Member = Member {
    instance: 0,
    start: 0,
    length: 0,
};

// A judgement whose ring has no instance.
fn without_ring(word: u32, number: u32, byte: usize) -> Judgement {
    Judgement {
        word,
        number,
        byte,
        count: 0,
        ring: [NO_MEMBER; 32],
    }
}

#[test]
fn charts_that_run(rt: HostRuntime) {
    let texts: [&[u8]; 8] = [
        // no instance, and an instance without an event
        b"msc c;endmsc;",
        b"msc c;instance a;endinstance;endmsc;",
        // an action, and messages of the environment
        b"msc c;instance a;action x;in m from env;out n to env;endinstance;endmsc;",
        // a message, from below and from above
        b"msc c;instance a;out m to b;endinstance;instance b;in m from a;endinstance;endmsc;",
        b"msc c;instance a;in m from b;endinstance;instance b;out m to a;endinstance;endmsc;",
        // one message overtakes another
        b"msc c;instance a;out m to b;out n to b;endinstance;instance b;in n from a;in m from a;endinstance;endmsc;",
        // a message to itself
        b"msc c;instance a;out m to a;in m from a;endinstance;endmsc;",
        b"msc late;\ninstance log;\n  out text to bus;\nendinstance;\ninstance bus;\n  in text from log;\n  in ring from siren;\nendinstance;\ninstance siren;\n  out ring to bus;\n  action sound;\nendinstance;\nendmsc;\n",
    ];
    for text in texts {
        assert_eq!(rt; judge_text(text), without_ring(1, 0, 0));
    }
}

#[test]
fn texts_that_are_refused(rt: HostRuntime) {
    let cases: [(&[u8], u32, usize); 12] = [
        (b"", 24, 0),
        (b"#", 21, 0),
        (b"msc abcdefghijklmnopq;endmsc;", 22, 20),
        (b"msc slip;\ninstance a;\n  send m to b;\n", 23, 24),
        (b"msc c;endmsc", 24, 12),
        (
            b"msc c;instance a;endinstance;instance a;endinstance;endmsc;",
            25,
            38,
        ),
        (b"msc c;instance a;out m to b;endinstance;endmsc;", 26, 26),
        (b"msc c;endmsc; a", 28, 14),
        // two outputs have one message
        (
            b"msc c;instance a;out m to env;action x;out m to env;endinstance;endmsc;",
            17,
            39,
        ),
        // a message has no input, and one with the environment has two ends
        (
            b"msc c;instance a;action x;out m to b;endinstance;instance b;endinstance;endmsc;",
            18,
            26,
        ),
        (
            b"msc c;instance a;out m to env;endinstance;instance b;in m from env;endinstance;endmsc;",
            18,
            17,
        ),
        // what is refused first counts
        (b"msc c;instance a;out m to b;endinstance;endmsc;#", 21, 47),
    ];
    for (text, number, byte) in cases {
        assert_eq!(rt; judge_text(text), without_ring(3, number, byte));
    }
}

// That judge says the chart gets stuck in the ring of these instances, each with its name, and has zeros in the other rows.
pub(crate) fn check_ring(rt: &impl Abort, text: &[u8], ring: &[(usize, &[u8])]) {
    let said = judge_text(text);
    assert_eq!(rt;
        (said.word, said.number, said.byte, said.count),
        (2, 0, 0, ring.len())
    );
    for (member, (instance, name)) in said.ring.iter().zip(ring) {
        assert_eq!(rt; member.instance, *instance);
        assert_eq!(rt;
            text.get(member.start..)
                .map_or(false, |rest| rest.starts_with(name)),
            true
        );
        assert_eq!(rt; member.length, name.len());
    }
    assert!(rt;
        said.ring
            .iter()
            .skip(ring.len())
            .all(|member| *member == NO_MEMBER)
    );
}
