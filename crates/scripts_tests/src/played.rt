use charts::{Chart, Event, Fault, Kind, Peer};
use logs::{Cause, Refusal as LogRefusal, Verdict as LogVerdict};
use media::Medium;
use plays::{Played, Unplayed, play, read_script};
use runs::{Answer, Call, Drove, Ending, Refusal, Verdict};
use std::alloc::Global;
use std::test::Fail;
use words::{Cause as TextCause, Fault as TextFault};

// What the last call of a text answers.
fn last_answer(heap: Global, text: &[u8]) -> Option<Answer> {
    let Played { turns, logs: _ } = play(heap, text).ok()?;
    turns.as_slice().last()?.answer
}

#[test]
fn a_script_is_read(rt: HostRuntime) -> Result<(), Fail> {
    let script = read_script(
        rt.alloc(),
        b"poll 1 1\n\npoll 2 1\nafter\nline\nnarrow 3\nstep 1\ndrive 2 5\n\njudge 40",
    )?;
    assert_eq!(rt; script.chart.width(), 3);
    assert_eq!(rt; script.chart.count(0), 6);
    assert!(rt; script.bus.sends(0, 1, 2) && !script.bus.sends(0, 1, 3));
    assert!(rt; script.bus.takes(0, 1, 0) && !script.bus.takes(0, 1, 1));
    let calls = [(Call::Step(1), 0), (Call::Drive(2), 5), (Call::Judge, 40)];
    assert_eq!(rt; script.turns.len(), 3);
    for (turn, (call, room)) in script.turns.as_slice().iter().zip(calls) {
        assert_eq!(rt; turn.call, call);
        assert_eq!(rt; turn.buffer.len(), room);
        assert_eq!(rt; turn.answer, None);
    }
    Ok(())
}

#[test]
fn a_script_may_make_no_call(rt: HostRuntime) -> Result<(), Fail> {
    let Played { turns, logs: _ } = play(rt.alloc(), b"poll 1 1\nnarrow 3\n")?;
    assert_eq!(rt; turns.len(), 0);
    let Played { turns, logs: _ } = play(rt.alloc(), b"table\n\n.")?;
    assert_eq!(rt; turns.len(), 0);
    Ok(())
}

#[test]
fn the_calls_of_a_poll(rt: HostRuntime) -> Result<(), Fail> {
    let Played { turns, logs: _ } = play(
        rt.alloc(),
        b"poll 1 1\nstep 1\nstep 0\nstep 0\nstep 2\ndrive 4 4\nstep 0\nrestart\ndrive 4 6\nlatest 0 0\nrestart\nlatest 0 1\njudge 32\n",
    )?;
    let poll = Event::new(Kind::Output, Peer::Instance(1), 0);
    let answers = [
        Answer::Refused(Refusal::MustWait(0)),
        Answer::Stepped(poll),
        Answer::Refused(Refusal::MustWait(1)),
        Answer::Refused(Refusal::NoInstance),
        Answer::Driven(Drove {
            made: 3,
            ending: Ending::Finished,
        }),
        Answer::Refused(Refusal::NothingLeft),
        Answer::Restarted,
        Answer::Driven(Drove {
            made: 4,
            ending: Ending::Finished,
        }),
        Answer::Refused(Refusal::HasRun),
        Answer::Restarted,
        Answer::Place(4),
        Answer::Judged(Verdict::Runs(4)),
    ];
    assert_eq!(rt; turns.len(), 12);
    for (turn, answer) in turns.as_slice().iter().zip(answers) {
        assert_eq!(rt; turn.answer, Some(answer));
    }
    Ok(())
}

#[test]
fn logs_are_kept_beside_the_calls(rt: HostRuntime) -> Result<(), Fail> {
    let script = read_script(
        rt.alloc(),
        b"poll 1 1\nlog\nstep 0\nlog 00fF\n\nlog 7a\nrestart\njudge 32\nlog 01\n",
    )?;
    let logs: [(usize, &[u8]); 4] = [(0, &[]), (1, &[0, 255]), (1, &[122]), (3, &[1])];
    assert_eq!(rt; script.turns.len(), 3);
    assert_eq!(rt; script.logs.len(), 4);
    for (log, (after, bytes)) in script.logs.as_slice().iter().zip(logs) {
        assert_eq!(rt; log.after, after);
        assert_eq!(rt; log.bytes.as_slice(), bytes);
        assert_eq!(rt; log.answer, None);
    }
    Ok(())
}

#[test]
fn logs_are_checked_on_runs_of_their_own(rt: HostRuntime) -> Result<(), Fail> {
    // logs of the poll's first event, of an event that must wait for it, and of no event
    let Played { turns, logs } = play(
        rt.alloc(),
        b"poll 1 1\nstep 0\nlog 030001000204000400020000010000020003000100\nlog 030001000204000400020001020000\nstep 1\nlog\n",
    )?;
    let events = [
        Event::new(Kind::Output, Peer::Instance(1), 0),
        Event::new(Kind::Input, Peer::Instance(0), 0),
    ];
    assert_eq!(rt; turns.len(), 2);
    for (turn, event) in turns.as_slice().iter().zip(events) {
        assert_eq!(rt; turn.answer, Some(Answer::Stepped(event)));
    }
    let answers = [
        Ok(LogVerdict::Part),
        Err(LogRefusal::Record(1, Cause::MustWait(0))),
        Err(LogRefusal::Record(0, Cause::CutShort)),
    ];
    assert_eq!(rt; logs.len(), 3);
    for (log, answer) in logs.as_slice().iter().zip(answers) {
        assert_eq!(rt; log.answer, Some(answer));
    }
    Ok(())
}

#[test]
fn buffers_keep_what_is_not_written(rt: HostRuntime) -> Result<(), Fail> {
    let Played { turns, logs: _ } = play(rt.alloc(), b"poll 1 1\ndrive 4 6\n")?;
    let Some(turn) = turns.as_slice().first() else {
        return Err(Fail::new("no turn"));
    };
    assert_eq!(rt; turn.buffer.as_slice(), [0, 1, 1, 0, 0, 0].as_slice());
    let Played { turns, logs: _ } = play(rt.alloc(), b"poll 1 1\nstep 0\ndrive 2 3\n")?;
    let Some(turn) = turns.as_slice().last() else {
        return Err(Fail::new("no turn"));
    };
    assert_eq!(rt; turn.buffer.as_slice(), [1, 1, 0].as_slice());
    Ok(())
}

#[test]
fn rooms_and_numbers_at_their_ends(rt: HostRuntime) {
    let heap = rt.alloc();
    let short = Some(Answer::Refused(Refusal::ShortBuffer));
    let finished = Some(Answer::Driven(Drove {
        made: 4,
        ending: Ending::Finished,
    }));
    assert_eq!(rt; last_answer(heap, b"poll 1 1\ndrive 65535 65534"), short);
    assert_eq!(rt; last_answer(heap, b"poll 1 1\ndrive 65535 65535"), finished);
    assert_eq!(rt; last_answer(heap, b"poll 1 1\njudge 31"), short);
    assert_eq!(rt;
        last_answer(heap, b"poll 1 1\njudge 65535"),
        Some(Answer::Judged(Verdict::Runs(4)))
    );
    assert_eq!(rt;
        last_answer(heap, b"poll 1 1\nstep 255"),
        Some(Answer::Refused(Refusal::NoInstance))
    );
    assert_eq!(rt;
        last_answer(heap, b"poll 1 1\nlatest 1 65535"),
        Some(Answer::Refused(Refusal::NoEvent))
    );
}

// What judge answers over the medium on these lines of a chart in which an instance inputs two messages of another in the other order.
fn crossed(heap: Global, medium: &[u8]) -> Result<Option<Verdict>, Unplayed> {
    let mut text = Vec::new(heap);
    text.extend_from_slice(b"table\n2 2\n1 1 0\n1 1 1\n2 0 1\n2 0 0\n.\n")?;
    text.extend_from_slice(medium)?;
    text.extend_from_slice(b"\njudge 32\n")?;
    Ok(match last_answer(heap, text.as_slice()) {
        Some(Answer::Judged(verdict)) => Some(verdict),
        _ => None,
    })
}

#[test]
fn the_medium_decides(rt: HostRuntime) {
    let heap = rt.alloc();
    let cases: [(&[u8], Verdict); 8] = [
        (b"", Verdict::Runs(4)),
        (b"free", Verdict::Runs(4)),
        (b"line", Verdict::Stuck(1)),
        (b"narrow 2", Verdict::Runs(4)),
        (b"narrow 1", Verdict::Stuck(2)),
        // each narrowing goes over the medium so far
        (b"narrow 1\nnarrow 2", Verdict::Stuck(2)),
        // `free` and `line` begin it anew
        (b"line\nnarrow 1\nfree", Verdict::Runs(4)),
        (b"narrow 1\nline", Verdict::Stuck(1)),
    ];
    for (medium, verdict) in cases {
        assert_eq!(rt; crossed(heap, medium), Ok(Some(verdict)));
    }
}

#[test]
fn a_ring_is_written(rt: HostRuntime) -> Result<(), Fail> {
    let Played { turns, logs: _ } = play(
        rt.alloc(),
        b"table\n1 1\n1 1 0\n2 0 0\n.\nnarrow 0\njudge 32\n",
    )?;
    let Some(turn) = turns.as_slice().first() else {
        return Err(Fail::new("no turn"));
    };
    assert_eq!(rt; turn.answer, Some(Answer::Judged(Verdict::Stuck(2))));
    assert_eq!(rt; turn.buffer.as_slice().get(0), Some(&0));
    assert_eq!(rt; turn.buffer.as_slice().get(1), Some(&1));
    Ok(())
}

#[test]
fn a_spoiled_chart_refuses_every_call(rt: HostRuntime) -> Result<(), Fail> {
    let Played { turns, logs: _ } = play(
        rt.alloc(),
        b"poll 32 1\nline\nstep 0\ndrive 0 0\nrestart\njudge 0\nlatest 0 0\n",
    )?;
    let fault = Fault {
        number: 33,
        instance: 0,
        event: 0,
        layer: 2,
    };
    assert_eq!(rt; turns.len(), 5);
    for turn in turns.as_slice() {
        assert_eq!(rt; turn.answer, Some(Answer::Refused(Refusal::Spoiled(fault))));
    }
    Ok(())
}

#[test]
fn the_first_refused_text_is_told(rt: HostRuntime) {
    let cases: [(&[u8], TextCause, usize); 8] = [
        // bytes count from the line behind `text`, in each text anew
        (b"text\n.\n", TextCause::TextEnds, 0),
        (b"text\nmsc c\n.", TextCause::TextEnds, 6),
        (b"text\n\n msc #\n.\n", TextCause::BadByte, 6),
        (
            b"poll 1 1\n\ntext\nmsc c;\nendmsc;\nx\n.\n",
            TextCause::AfterEnd,
            15,
        ),
        // the first one counts, and what stands behind it does not
        (
            b"text\nmsc c;\nendmsc;\n.\ntext\nmsc #\n.\ntext\n.\n",
            TextCause::BadByte,
            4,
        ),
        (b"text\n#\n.\nstop\n", TextCause::BadByte, 0),
        (b"text\n#\n.\ntext\n", TextCause::BadByte, 0),
        (
            b"text\nmsc c;\ninstance a;\naction x;\nout m to b;\nendinstance;\nendmsc;\n.\njudge 32\n",
            TextCause::PeerUnknown,
            38,
        ),
    ];
    for (text, cause, byte) in cases {
        let fault = Some(Unplayed::Text(TextFault::at(cause, byte)));
        assert_eq!(rt; read_script(rt.alloc(), text).err(), fault);
        assert_eq!(rt; play(rt.alloc(), text).err(), fault);
    }
}
