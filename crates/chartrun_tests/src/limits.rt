use crate::shown::check_texts;
use judged::judged_lines;
use std::alloc::Global;
use std::test::Fail;

// A chart of so many instances, each with so many actions.
fn chart_of(heap: Global, instances: u8, actions: u16) -> Result<Vec<u8>, Fail> {
    let mut text = Vec::new(heap);
    text.extend_from_slice(b"msc c;")?;
    for i in 0..instances {
        text.extend_from_slice(b"instance i")?;
        text.push(b'0' + i / 10)?;
        text.push(b'0' + i % 10)?;
        text.extend_from_slice(b";")?;
        for _k in 0..actions {
            text.extend_from_slice(b"action x;")?;
        }
        text.extend_from_slice(b"endinstance;")?;
    }
    text.extend_from_slice(b"endmsc;")?;
    Ok(text)
}

#[test]
fn too_many_instances_or_events(rt: HostRuntime) -> Result<(), Fail> {
    let heap = rt.alloc();
    let wide = chart_of(heap, 33, 0)?;
    let long = chart_of(heap, 1, 4097)?;
    check_texts(
        &rt,
        heap,
        &[
            (wide.as_slice(), b"refused 11 at 0\n"),
            (long.as_slice(), b"refused 12 at 0\n"),
        ],
    )
}

#[test]
fn as_many_as_there_may_be(rt: HostRuntime) -> Result<(), Fail> {
    let heap = rt.alloc();
    let text = chart_of(heap, 32, 128)?;
    let lines = judged_lines(heap, text.as_slice())?;
    assert!(rt;
        lines
            .as_slice()
            .starts_with(b"chart c 32 4096\n1 i00 action x\n2 i00 action x\n")
    );
    assert!(rt;
        lines
            .as_slice()
            .ends_with(b"\n4095 i31 action x\n4096 i31 action x\nruns\n")
    );
    Ok(())
}
