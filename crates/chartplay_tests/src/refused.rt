use crate::shown::check_calls;
use std::test::Fail;

// Two instances that wait for each other, and a message from instance 2 to instance 3.
#[test]
fn every_refusal(rt: HostRuntime) -> Result<(), Fail> {
    check_calls(
        &rt,
        rt.alloc(),
        "table\n2 2\n2 1 0\n1 1 1\n2 0 1\n1 0 0\n.\ntable\n1 1\n1 1 0\n2 0 0\n.\nbeside\n",
        "free",
        &[
            ("step 4", "refused 41"),
            ("latest 4 0", "refused 41"),
            ("step 2", "stepped out 3 2"),
            ("step 2", "refused 42"),
            ("step 0", "refused 43 1"),
            ("drive 2 1", "refused 44"),
            ("judge 31", "refused 44"),
            ("latest 3 1", "refused 45"),
            ("latest 2 0", "refused 46"),
            ("latest 3 0", "refused 47"),
            ("judge 32", "stuck 0 1"),
        ],
    )
}

#[test]
fn every_fault_of_a_chart(rt: HostRuntime) -> Result<(), Fail> {
    let cases = [
        (
            "table\n0 0 0 0 0 0 0 0 0 0 0 0 0 0 0 0 0 0 0 0 0 0 0 0 0 0 0 0 0 0 0 0 0\n.\n",
            "spoiled 11 0 0 1",
        ),
        ("table\n1\n.\n", "spoiled 13 0 0 1"),
        ("table\n1\n4 255 0\n.\n", "spoiled 14 0 0 1"),
        ("table\n1\n3 0 0\n.\n", "spoiled 15 0 0 1"),
        ("table\n1\n3 255 4096\n.\n", "spoiled 16 0 0 1"),
        ("table\n2\n1 255 0\n1 255 0\n.\n", "spoiled 17 0 1 1"),
        ("table\n1\n1 0 0\n.\n", "spoiled 18 0 0 1"),
        ("poll 15 1\npoll 16 1\nbeside\n", "spoiled 31 0 0 4"),
        ("poll 1 1\nrecast 0 0\n", "spoiled 32 0 0 5"),
        ("poll 32 1\n", "spoiled 33 0 0 2"),
    ];
    for (chart, line) in cases {
        check_calls(&rt, rt.alloc(), chart, "", &[("judge 32", line)])?;
    }
    Ok(())
}

#[test]
fn every_call_of_a_spoiled_chart(rt: HostRuntime) -> Result<(), Fail> {
    check_calls(
        &rt,
        rt.alloc(),
        "table\n2 1\n1 1 0\n1 1 0\n2 0 0\n.\n",
        "line",
        &[
            ("step 0", "spoiled 17 0 1 1"),
            ("drive 1 0", "spoiled 17 0 1 1"),
            ("restart", "spoiled 17 0 1 1"),
            ("judge 0", "spoiled 17 0 1 1"),
            ("latest 9 9", "spoiled 17 0 1 1"),
        ],
    )
}
