use crate::shown::check_calls;
use std::test::Fail;

// A log, a bus and a siren: the bus takes the text of the log before the ring of the siren.
const LATE: &str = "table\n1 2 2\n1 1 0\n2 0 0\n2 2 1\n1 1 1\n3 255 0\n.\n";

// A log of all of its events.
const FULL: &str =
    "log 0300010003050004000200000100000400020001020000040002000201010004000200010201000400020002030000020003000500";

// Two messages, the second of which is taken first.
const OVER: &str = "table\n2 2\n1 1 0\n1 1 1\n2 0 1\n2 0 0\n.\n";

// A log of both sent, and the second taken.
const OVER_LOG: &str =
    "log 03000100020400040002000001000004000200000101000400020001020100020003000300";

// The logs stand between calls, which go on as they would without them.
#[test]
fn logs_of_late(rt: HostRuntime) -> Result<(), Fail> {
    check_calls(
        &rt,
        rt.alloc(),
        LATE,
        "free",
        &[
            (FULL, "full"),
            ("step 0", "stepped out 1 0"),
            (
                "log 0300010003050004000200000100000400020002010100020003000200",
                "part",
            ),
            ("log 03000100030500020003000000", "part"),
            ("step 2", "stepped out 1 1"),
            (
                "log 0300010003050004000200020101000400020001020000",
                "refused 43 2 0",
            ),
            ("log", "refused 51 0"),
            ("log 03000100030500", "refused 51 1"),
            (
                "log 030001000305000400020000010000040002000102000004000200020101000400020001020100040002000203000002000300050000",
                "refused 51 7",
            ),
            ("log 00000000", "refused 52 0"),
            ("log 0300010003050003000100030500", "refused 52 1"),
            ("log 03000100020500", "refused 53 0"),
            ("log 030001000305000400020000010100", "refused 54 1"),
            ("log 030001000305000400020003010000", "refused 54 1"),
            (
                "log 030001000305000400020000010000020003000200",
                "refused 55 2",
            ),
            ("drive 9 9", "drove 3 finished 1 1 2"),
            ("judge 32", "runs"),
            (FULL, "full"),
        ],
    )
}

#[test]
fn a_log_is_checked_over_the_bus(rt: HostRuntime) -> Result<(), Fail> {
    let cases = [
        ("", "part"),
        ("line", "refused 43 3 1"),
        ("narrow 1", "refused 43 2 1"),
        ("line\nnarrow 1\nfree", "part"),
    ];
    for (bus, line) in cases {
        check_calls(&rt, rt.alloc(), OVER, bus, &[(OVER_LOG, line)])?;
    }
    Ok(())
}

#[test]
fn a_log_of_a_spoiled_chart(rt: HostRuntime) -> Result<(), Fail> {
    let chart = "table\n2 1\n1 1 0\n1 1 0\n2 0 0\n.\n";
    let calls = [
        ("log", "spoiled 17 0 1 1"),
        ("step 0", "spoiled 17 0 1 1"),
        (FULL, "spoiled 17 0 1 1"),
    ];
    check_calls(&rt, rt.alloc(), chart, "", &calls)
}

#[test]
fn a_log_of_the_empty_chart(rt: HostRuntime) -> Result<(), Fail> {
    let chart = "table\n.\n";
    check_calls(
        &rt,
        rt.alloc(),
        chart,
        "",
        &[("log 03000100000000020003000000", "full")],
    )
}
