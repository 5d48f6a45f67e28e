use crate::shown::{check_calls, check_refused};
use std::test::Fail;

// A log, a bus and a siren: the bus takes the text of the log before the ring of the siren.
const LATE: &str = "text
msc late;

instance log;
    out text to bus;
endinstance;

instance bus;
    in text from log;
    in ring from siren;
endinstance;

instance siren;
    out ring to bus;
    action sound;
endinstance;

endmsc;
.
";

// A message from one instance to another, and one that is sent back.
const HOP: &str =
    "text\nmsc hop; instance a; out m to b; endinstance; instance b; in m from a; endinstance; endmsc;\n.\n";

const BACK: &str =
    "text\nmsc back; instance a; in m from b; endinstance; instance b; out m to a; endinstance; endmsc;\n.\n";

#[test]
fn late_in_all_five_calls(rt: HostRuntime) -> Result<(), Fail> {
    check_calls(
        &rt,
        rt.alloc(),
        LATE,
        "",
        &[
            ("latest 0 0", "latest 3"),
            ("latest 1 0", "latest 4"),
            ("latest 2 0", "latest 3"),
            ("latest 2 1", "latest 5"),
            ("step 1", "refused 43 0"),
            ("step 2", "stepped out 1 1"),
            ("drive 2 5", "drove 2 count 0 1"),
            ("latest 2 0", "refused 46"),
            ("judge 32", "runs 1 2"),
            ("drive 5 2", "refused 44"),
            ("drive 5 5", "drove 2 finished 1 2"),
            ("step 2", "refused 42"),
            ("judge 32", "runs"),
            ("restart", "restarted"),
            ("judge 32", "runs 0 1 2 1 2"),
            ("judge 31", "refused 44"),
            ("drive 4 4", "drove 4 count 0 1 2 1"),
            ("step 2", "stepped action env 0"),
        ],
    )
}

#[test]
fn two_texts_are_joined(rt: HostRuntime) -> Result<(), Fail> {
    let heap = rt.alloc();
    let after = format!(in heap; "{HOP}{BACK}after\n")?;
    check_calls(
        &rt,
        heap,
        after.as_str(),
        "narrow 1",
        &[
            ("latest 0 1", "latest 4"),
            ("judge 32", "runs 0 1 1 0"),
            ("step 0", "stepped out 1 0"),
            ("step 0", "refused 43 1"),
            ("step 1", "stepped in 0 0"),
            ("step 1", "stepped out 0 1"),
        ],
    )?;
    let beside = format!(in heap; "{HOP}{BACK}beside\n")?;
    check_calls(
        &rt,
        heap,
        beside.as_str(),
        "",
        &[
            ("judge 32", "runs 0 1 3 2"),
            ("step 3", "stepped out 2 1"),
            ("step 4", "refused 41"),
        ],
    )?;
    let table = format!(in heap; "{HOP}table\n1 1\n1 1 0\n2 0 0\n.\nafter\nrecast 1 0\n")?;
    check_calls(
        &rt,
        heap,
        table.as_str(),
        "",
        &[("judge 32", "runs 1 0 1 0"), ("latest 1 1", "latest 3")],
    )
}

#[test]
fn a_text_may_be_empty_of_events(rt: HostRuntime) -> Result<(), Fail> {
    check_calls(
        &rt,
        rt.alloc(),
        "text\nmsc\tnone;endmsc\r\n;\n.\n",
        "",
        &[("judge 32", "runs"), ("step 0", "refused 41")],
    )
}

#[test]
fn refused_texts(rt: HostRuntime) -> Result<(), Fail> {
    let cases = [
        (
            "text\nmsc c;\ninstance a;\nout m to env;\nout m to env;\nendinstance;\nendmsc;\n.\njudge 32\n",
            "refused 17 at 33",
        ),
        (
            "text\nmsc c;\ninstance a;\nout m to b;\nendinstance;\ninstance b;\nendinstance;\nendmsc;\n.\n",
            "refused 18 at 19",
        ),
        (
            "text\nmsc c;\ninstance a;\nout m from b;\n.\n",
            "refused 23 at 25",
        ),
        (
            "text\nmsc c;\ninstance a;\nin m from b;\nendinstance;\nendmsc;\n.\n",
            "refused 26 at 29",
        ),
    ];
    for (script, line) in cases {
        check_refused(&rt, rt.alloc(), script, line)?;
    }
    Ok(())
}
