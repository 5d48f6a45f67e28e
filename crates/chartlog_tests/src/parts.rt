use crate::shown::{
    END_0, END_2, END_5, HEAD, RING_HERE, RING_SENT, SOUND, TEXT, TEXT_HERE, TEXT_SENT, check_logs,
};
use std::test::Fail;

#[test]
fn full_logs(rt: HostRuntime) -> Result<(), Fail> {
    check_logs(
        &rt,
        rt.alloc(),
        TEXT,
        &[
            (
                &[
                    HEAD, TEXT_SENT, TEXT_HERE, RING_SENT, RING_HERE, SOUND, END_5,
                ],
                b"1 log out text\n2 bus in text\n3 siren out ring\n4 bus in ring\n5 siren action sound\nfull\n",
            ),
            // in another order
            (
                &[
                    HEAD, RING_SENT, SOUND, TEXT_SENT, TEXT_HERE, RING_HERE, END_5,
                ],
                b"1 siren out ring\n2 siren action sound\n3 log out text\n4 bus in text\n5 bus in ring\nfull\n",
            ),
        ],
    )
}

#[test]
fn parts(rt: HostRuntime) -> Result<(), Fail> {
    check_logs(
        &rt,
        rt.alloc(),
        TEXT,
        &[
            (&[HEAD, END_0], b"part\n"),
            (
                &[HEAD, TEXT_SENT, TEXT_HERE, END_2],
                b"1 log out text\n2 bus in text\npart\n",
            ),
            (
                &[HEAD, RING_SENT, SOUND, END_2],
                b"1 siren out ring\n2 siren action sound\npart\n",
            ),
        ],
    )
}
