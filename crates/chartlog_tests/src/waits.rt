use crate::shown::{
    END_5, HEAD, RING_HERE, RING_SENT, SOUND, TEXT, TEXT_HERE, TEXT_SENT, check_logs,
};
use std::test::Fail;

#[test]
fn events_that_must_wait(rt: HostRuntime) -> Result<(), Fail> {
    check_logs(
        &rt,
        rt.alloc(),
        TEXT,
        &[
            // the text was not sent: for the log
            (
                &[
                    HEAD, TEXT_HERE, TEXT_SENT, RING_SENT, RING_HERE, SOUND, END_5,
                ],
                b"refused 43 1 0\n",
            ),
            (
                &[HEAD, RING_SENT, SOUND, TEXT_HERE, TEXT_SENT],
                b"1 siren out ring\n2 siren action sound\nrefused 43 3 0\n",
            ),
            // the ring was not: for the siren
            (
                &[
                    HEAD, TEXT_SENT, TEXT_HERE, RING_HERE, RING_SENT, SOUND, END_5,
                ],
                b"1 log out text\n2 bus in text\nrefused 43 3 2\n",
            ),
        ],
    )
}
