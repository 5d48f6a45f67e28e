use crate::judgements::check_ring;
use std::alloc::{AllocError, Global};
use verdicts::{Member, judge_text};

#[test]
fn charts_that_get_stuck(rt: HostRuntime) {
    let cases: [(&[u8], &[(usize, &[u8])]); 6] = [
        // an instance that waits for itself
        (
            b"msc c;instance alone;in m from alone;out m to alone;endinstance;endmsc;",
            &[(0, b"alone")],
        ),
        (
            b"msc cross;instance a;in p from b;out q to b;endinstance;instance b;in q from a;out p to a;endinstance;endmsc;",
            &[(0, b"a"), (1, b"b")],
        ),
        // an instance that waits for a ring is not of it
        (
            b"msc behind;instance log;in t from bus;endinstance;instance bus;in p from siren;out q to siren;out t to log;endinstance;instance siren;in q from bus;out p to bus;endinstance;endmsc;",
            &[(1, b"bus"), (2, b"siren")],
        ),
        // the walk along the waits enters the ring at its second instance
        (
            b"msc c;instance log;in t from siren;endinstance;instance bus;in p from siren;out q to siren;endinstance;instance siren;in q from bus;out p to bus;out t to log;endinstance;endmsc;",
            &[(2, b"siren"), (1, b"bus")],
        ),
        // some events can happen before
        (
            b"msc c;instance a;out m to b;action x;in p from c;out q to b;endinstance;instance b;in m from a;in q from a;out r to c;endinstance;instance c;in r from b;out p to a;endinstance;endmsc;",
            &[(0, b"a"), (2, b"c"), (1, b"b")],
        ),
        // the longest name
        (
            b"msc c;\n\tinstance instance_of_16_b ;\n\tin m from instance_of_16_b;\nout m to instance_of_16_b;endinstance;endmsc;",
            &[(0, b"instance_of_16_b")],
        ),
    ];
    for (text, ring) in cases {
        check_ring(&rt, text, ring);
    }
}

// The name of an instance below 100.
fn push_name(text: &mut Vec<u8>, word: &[u8], instance: usize) -> Result<(), AllocError> {
    text.extend_from_slice(word)?;
    text.push(b'0' + (instance / 10 % 10) as u8)?;
    text.push(b'0' + (instance % 10) as u8)?;
    Ok(())
}

// A chart in which each of so many instances waits for the next, and the last for the first.
fn ring_of(heap: Global, count: usize) -> Result<Vec<u8>, AllocError> {
    let mut text = Vec::new(heap);
    text.extend_from_slice(b"msc c;")?;
    for i in 0..count {
        let next = if i + 1 < count { i + 1 } else { 0 };
        let before = if i == 0 { count - 1 } else { i - 1 };
        push_name(&mut text, b"instance i", i)?;
        push_name(&mut text, b";in m", i)?;
        push_name(&mut text, b" from i", next)?;
        push_name(&mut text, b";out m", before)?;
        push_name(&mut text, b" to i", before)?;
        text.extend_from_slice(b";endinstance;")?;
    }
    text.extend_from_slice(b"endmsc;")?;
    Ok(text)
}

// The row of an instance in that chart.
fn row_of(instance: u8) -> Member {
    let instance = usize::from(instance);
    Member {
        instance,
        start: 15 + instance * 56,
        length: 3,
    }
}

#[test]
fn the_longest_ring(rt: HostRuntime) {
    let text = ring_of(rt.alloc(), 32).expect(&rt, "memory");
    let said = judge_text(text.as_slice());
    assert_eq!(rt;
        (said.word, said.number, said.byte, said.count),
        (2, 0, 0, 32)
    );
    for (instance, member) in (0u8..32).zip(said.ring.iter()) {
        assert_eq!(rt; *member, row_of(instance));
    }
    let text = ring_of(rt.alloc(), 33).expect(&rt, "memory");
    let said = judge_text(text.as_slice());
    assert_eq!(rt;
        (said.word, said.number, said.byte, said.count),
        (3, 11, 0, 0)
    );
}
