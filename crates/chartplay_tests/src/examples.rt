use crate::shown::check_calls;
use std::test::Fail;

// A message from instance 0 to instance 1.
const HOP: &str = "table\n1 1\n1 1 0\n2 0 0\n.\n";

// Two instances, each with an input from the other before its output.
const CROSS: &str = "table\n2 2\n2 1 0\n1 1 1\n2 0 1\n1 0 0\n.\n";

// A log, a bus and a siren: the bus takes the text of the log before the ring of the siren.
const LATE: &str = "table\n1 2 2\n1 1 0\n2 0 0\n2 2 1\n1 1 1\n3 255 0\n.\n";

// Two messages, the second of which is taken first.
const OVER: &str = "table\n2 2\n1 1 0\n1 1 1\n2 0 1\n2 0 0\n.\n";

// A log, a bus, a siren and a keypad, with two entries for the log before the ring.
const SIREN: &str =
    "table\n4 7 3 1\n2 1 2\n2 1 0\n2 1 1\n2 1 5\n2 3 6\n1 0 0\n1 0 1\n1 0 2\n1 2 3\n2 2 4\n1 0 5\n2 1 3\n3 255 0\n1 1 4\n1 1 6\n.\n";

// The same with six entries.
const FULL_LOG: &str =
    "table\n8 11 3 1\n2 1 6\n2 1 0\n2 1 1\n2 1 2\n2 1 3\n2 1 4\n2 1 5\n2 1 9\n2 3 10\n1 0 0\n1 0 1\n1 0 2\n1 0 3\n1 0 4\n1 0 5\n1 0 6\n1 2 7\n2 2 8\n1 0 9\n2 1 7\n3 255 0\n1 1 8\n1 1 10\n.\n";

#[test]
fn late_in_all_five_calls(rt: HostRuntime) -> Result<(), Fail> {
    check_calls(
        &rt,
        rt.alloc(),
        LATE,
        "",
        &[
            ("latest 0 0", "latest 3"),
            ("latest 1 0", "latest 4"),
            ("latest 2 0", "latest 3"),
            ("latest 2 1", "latest 5"),
            ("step 1", "refused 43 0"),
            ("step 2", "stepped out 1 1"),
            ("drive 2 5", "drove 2 count 0 1"),
            ("latest 2 0", "refused 46"),
            ("judge 32", "runs 1 2"),
            ("drive 5 2", "refused 44"),
            ("drive 5 5", "drove 2 finished 1 2"),
            ("step 2", "refused 42"),
            ("judge 32", "runs"),
            ("restart", "restarted"),
            ("judge 32", "runs 0 1 2 1 2"),
            ("judge 31", "refused 44"),
        ],
    )
}

#[test]
fn more_entries_push_the_siren_back(rt: HostRuntime) -> Result<(), Fail> {
    check_calls(
        &rt,
        rt.alloc(),
        SIREN,
        "narrow 4",
        &[
            ("judge 32", "runs 3 1 1 1 1 0 0 0 1 2 2 2 1 1 0"),
            ("latest 2 1", "latest 11"),
            (
                "drive 15 15",
                "drove 15 finished 3 1 1 1 1 0 0 0 1 2 2 2 1 1 0",
            ),
        ],
    )?;
    check_calls(
        &rt,
        rt.alloc(),
        FULL_LOG,
        "narrow 7",
        &[
            (
                "judge 32",
                "runs 3 1 1 1 1 1 1 1 1 0 0 0 0 0 0 0 1 2 2 2 1 1 0",
            ),
            ("latest 2 1", "latest 19"),
        ],
    )
}

#[test]
fn the_log_and_the_bus_wait_for_each_other(rt: HostRuntime) -> Result<(), Fail> {
    check_calls(
        &rt,
        rt.alloc(),
        FULL_LOG,
        "narrow 4",
        &[
            ("judge 32", "stuck 0 1"),
            ("latest 2 1", "refused 47"),
            ("drive 23 23", "drove 6 stuck 3 1 1 1 1 1"),
            ("step 0", "refused 43 1"),
            ("step 1", "refused 43 0"),
            ("step 2", "refused 43 1"),
        ],
    )
}

#[test]
fn over_on_a_line(rt: HostRuntime) -> Result<(), Fail> {
    check_calls(
        &rt,
        rt.alloc(),
        OVER,
        "free",
        &[("judge 32", "runs 0 0 1 1"), ("latest 1 0", "latest 3")],
    )?;
    check_calls(
        &rt,
        rt.alloc(),
        OVER,
        "line",
        &[
            ("judge 32", "stuck 1"),
            ("latest 1 0", "refused 47"),
            ("drive 4 4", "drove 2 stuck 0 0"),
            ("step 1", "refused 43 1"),
        ],
    )
}

#[test]
fn over_on_a_narrow_bus(rt: HostRuntime) -> Result<(), Fail> {
    check_calls(
        &rt,
        rt.alloc(),
        OVER,
        "narrow 1",
        &[("judge 32", "stuck 0 1")],
    )?;
    check_calls(
        &rt,
        rt.alloc(),
        OVER,
        "narrow 2",
        &[("judge 32", "runs 0 0 1 1")],
    )?;
    check_calls(
        &rt,
        rt.alloc(),
        OVER,
        "line\nnarrow 2",
        &[("judge 32", "stuck 1")],
    )
}

#[test]
fn hops(rt: HostRuntime) -> Result<(), Fail> {
    check_calls(
        &rt,
        rt.alloc(),
        HOP,
        "narrow 0",
        &[("judge 32", "stuck 0 1")],
    )?;
    check_calls(
        &rt,
        rt.alloc(),
        "table\n1 1\n1 1 0\n2 0 0\n.\ntable\n1 1\n1 1 0\n2 0 0\n.\nafter\n",
        "free",
        &[("latest 0 1", "latest 3")],
    )?;
    check_calls(
        &rt,
        rt.alloc(),
        "table\n1 1\n1 1 0\n2 0 0\n.\ntable\n1 1\n1 1 0\n2 0 0\n.\nbeside\n",
        "free",
        &[("latest 0 0", "latest 3")],
    )?;
    check_calls(&rt, rt.alloc(), CROSS, "free", &[("judge 32", "stuck 0 1")])
}

#[test]
fn a_poll_and_an_empty_chart(rt: HostRuntime) -> Result<(), Fail> {
    check_calls(
        &rt,
        rt.alloc(),
        "poll 1 1\n",
        "",
        &[("drive 4 4", "drove 4 finished 0 1 1 0")],
    )?;
    check_calls(
        &rt,
        rt.alloc(),
        "table\n.\n",
        "",
        &[("judge 32", "runs"), ("drive 0 0", "drove 0 finished")],
    )
}

#[test]
fn a_script_without_a_call(rt: HostRuntime) -> Result<(), Fail> {
    check_calls(&rt, rt.alloc(), HOP, "line", &[])
}
