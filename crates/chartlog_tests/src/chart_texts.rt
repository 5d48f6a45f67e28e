use crate::shown::{END_0, END_2, HEAD, TEXT_HERE, TEXT_SENT, check_logs};
use std::test::Fail;

#[test]
fn texts_that_are_refused(rt: HostRuntime) -> Result<(), Fail> {
    let log: &[&[u8]] = &[HEAD, TEXT_SENT, TEXT_HERE, END_2];
    check_logs(&rt, rt.alloc(), b"", &[(log, b"refused 24 at 0\n")])?;
    check_logs(&rt, rt.alloc(), b"msc c;#", &[(log, b"refused 21 at 6\n")])?;
    check_logs(
        &rt,
        rt.alloc(),
        b"msc c;instance a;out m to b;endinstance;instance b;endinstance;endmsc;",
        &[(log, b"refused 18 at 17\n"), (&[], b"refused 18 at 17\n")],
    )
}

#[test]
fn charts_of_no_events(rt: HostRuntime) -> Result<(), Fail> {
    check_logs(
        &rt,
        rt.alloc(),
        b"msc c;endmsc;",
        &[
            (&[&[3, 0, 1, 0, 0, 0, 0], END_0], b"full\n"),
            (
                &[&[3, 0, 1, 0, 0, 0, 0], TEXT_SENT, END_0],
                b"refused 54 1\n",
            ),
        ],
    )
}

#[test]
fn charts_that_get_stuck(rt: HostRuntime) -> Result<(), Fail> {
    check_logs(
        &rt,
        rt.alloc(),
        b"msc c;instance a;action x;in p from b;out q to b;endinstance;instance b;in q from a;out p to a;endinstance;endmsc;",
        &[(
            &[
                &[3, 0, 1, 0, 2, 5, 0],
                &[4, 0, 2, 0, 0, 3, 0, 0],
                &[4, 0, 2, 0, 1, 2, 1, 0],
                END_2,
            ],
            b"1 a action x\nrefused 43 2 0\n",
        )],
    )
}
