use crate::shown::check_texts;
use std::test::Fail;

#[test]
fn every_fault_of_a_text(rt: HostRuntime) -> Result<(), Fail> {
    check_texts(
        &rt,
        rt.alloc(),
        &[
            (b"", b"refused 24 at 0\n"),
            (b"msc c;#", b"refused 21 at 6\n"),
            (b"msc abcdefghijklmnopq;", b"refused 22 at 20\n"),
            (b"mcs c;endmsc;", b"refused 23 at 0\n"),
            (b"msc c;", b"refused 24 at 6\n"),
            (
                b"msc c;instance a;endinstance;instance a;endinstance;endmsc;",
                b"refused 25 at 38\n",
            ),
            (
                b"msc c;instance a;out m to b;endinstance;endmsc;",
                b"refused 26 at 26\n",
            ),
            (b"msc c;endmsc;x", b"refused 28 at 13\n"),
        ],
    )
}

#[test]
fn every_rule_of_a_chart(rt: HostRuntime) -> Result<(), Fail> {
    check_texts(
        &rt,
        rt.alloc(),
        &[
            (
                b"msc c;instance a;out m to env;out m to env;endinstance;endmsc;",
                b"refused 17 at 30\n",
            ),
            (
                b"msc c;instance a;out m to b;endinstance;instance b;endinstance;endmsc;",
                b"refused 18 at 17\n",
            ),
        ],
    )
}
