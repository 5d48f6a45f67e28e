use crate::shown::{
    END_0, END_2, END_5, HEAD, RING_HERE, RING_SENT, SOUND, TEXT, TEXT_HERE, TEXT_SENT, check_logs,
};
use std::test::Fail;

#[test]
fn records_cut_short(rt: HostRuntime) -> Result<(), Fail> {
    check_logs(
        &rt,
        rt.alloc(),
        TEXT,
        &[
            (&[], b"refused 51 0\n"),
            (&[&[3, 0, 1, 0, 3, 5]], b"refused 51 0\n"),
            (&[HEAD], b"refused 51 1\n"),
            // it stops before its end
            (&[HEAD, TEXT_SENT], b"1 log out text\nrefused 51 2\n"),
            // an entry is cut short
            (
                &[HEAD, TEXT_SENT, &[4, 0, 2, 0, 1, 2, 0]],
                b"1 log out text\nrefused 51 2\n",
            ),
            // after the end
            (
                &[HEAD, TEXT_SENT, TEXT_HERE, END_2, &[0]],
                b"1 log out text\n2 bus in text\nrefused 51 4\n",
            ),
        ],
    )
}

#[test]
fn wrong_records(rt: HostRuntime) -> Result<(), Fail> {
    check_logs(
        &rt,
        rt.alloc(),
        TEXT,
        &[
            // no head: what stands behind is not looked at
            (&[TEXT_SENT, HEAD, TEXT_SENT, END_0], b"refused 52 0\n"),
            (&[END_0], b"refused 52 0\n"),
            // a second head
            (
                &[HEAD, TEXT_SENT, HEAD, TEXT_HERE, END_2],
                b"1 log out text\nrefused 52 2\n",
            ),
            // of another kind
            (
                &[HEAD, TEXT_SENT, TEXT_HERE, &[4, 0, 4, 0, 2, 1, 1, 0], SOUND],
                b"1 log out text\n2 bus in text\nrefused 52 3\n",
            ),
            // after the end, an entry too that could be taken
            (
                &[HEAD, TEXT_SENT, TEXT_HERE, END_2, RING_SENT],
                b"1 log out text\n2 bus in text\nrefused 52 4\n",
            ),
        ],
    )
}

#[test]
fn other_charts(rt: HostRuntime) -> Result<(), Fail> {
    check_logs(
        &rt,
        rt.alloc(),
        TEXT,
        &[
            (
                &[&[3, 0, 1, 0, 4, 5, 0], TEXT_SENT, TEXT_HERE, END_2],
                b"refused 53 0\n",
            ),
            (
                &[&[3, 0, 1, 0, 3, 5, 1], TEXT_SENT, TEXT_HERE, END_2],
                b"refused 53 0\n",
            ),
        ],
    )
}

#[test]
fn events_that_are_not_next(rt: HostRuntime) -> Result<(), Fail> {
    check_logs(
        &rt,
        rt.alloc(),
        TEXT,
        &[
            // another event of the instance
            (&[HEAD, SOUND, RING_SENT, END_2], b"refused 54 1\n"),
            // of an instance that is done
            (
                &[HEAD, TEXT_SENT, TEXT_SENT, TEXT_HERE],
                b"1 log out text\nrefused 54 2\n",
            ),
            // of no instance
            (
                &[HEAD, RING_SENT, &[4, 0, 2, 0, 3, 1, 0, 0], SOUND],
                b"1 siren out ring\nrefused 54 2\n",
            ),
            // what stands behind it is not listed
            (
                &[
                    HEAD, TEXT_SENT, TEXT_HERE, RING_SENT, TEXT_HERE, SOUND, RING_HERE, END_5,
                ],
                b"1 log out text\n2 bus in text\n3 siren out ring\nrefused 54 4\n",
            ),
        ],
    )
}

#[test]
fn wrong_counts(rt: HostRuntime) -> Result<(), Fail> {
    check_logs(
        &rt,
        rt.alloc(),
        TEXT,
        &[
            (&[HEAD, END_2], b"refused 55 1\n"),
            (
                &[
                    HEAD, TEXT_SENT, TEXT_HERE, RING_SENT, RING_HERE, SOUND, END_2,
                ],
                b"1 log out text\n2 bus in text\n3 siren out ring\n4 bus in ring\n5 siren action sound\nrefused 55 6\n",
            ),
        ],
    )
}
