use crate::{reply_line, reply_lines, text_refusal_line};
use charts::{Event, Fault, Kind, Peer, Rule};
use logs::{Cause as LogCause, Refusal as LogRefusal, Verdict as LogVerdict};
use plays::Log;
use runs::{Answer, Call, Drove, Ending, Refusal, Turn, Verdict};
use std::alloc::{AllocError, Global};
use std::process::Abort;
use std::test::Fail;
use words::{Cause, Fault as TextFault};

// Compares the line of an answer, of a call with this buffer.
fn check_line(
    rt: &impl Abort,
    heap: Global,
    answer: Answer,
    buffer: &[u8],
    line: &str,
) -> Result<(), Fail> {
    assert_eq!(rt; reply_line(heap, answer, buffer)?.as_str(), line);
    Ok(())
}

#[test]
fn steps_tell_the_event(rt: HostRuntime) -> Result<(), Fail> {
    let cases = [
        (Kind::Output, Peer::Instance(1), 0, "stepped out 1 0"),
        (Kind::Input, Peer::Instance(31), 4095, "stepped in 31 4095"),
        (Kind::Input, Peer::Environment, 17, "stepped in env 17"),
        (Kind::Action, Peer::Environment, 2, "stepped action env 2"),
    ];
    for (kind, peer, number, line) in cases {
        let answer = Answer::Stepped(Event::new(kind, peer, number));
        check_line(&rt, rt.alloc(), answer, &[9, 9], line)?;
    }
    Ok(())
}

#[test]
fn drives_tell_what_they_made(rt: HostRuntime) -> Result<(), Fail> {
    let buffer = [0, 1, 10, 31, 0, 9];
    let cases = [
        (0, Ending::Count, "drove 0 count"),
        (0, Ending::Stuck, "drove 0 stuck"),
        (1, Ending::Finished, "drove 1 finished 0"),
        (4, Ending::Count, "drove 4 count 0 1 10 31"),
        (5, Ending::Stuck, "drove 5 stuck 0 1 10 31 0"),
        // more than the buffer holds: no call answers so
        (7, Ending::Finished, "drove 7 finished 0 1 10 31 0 9"),
    ];
    for (made, ending, line) in cases {
        let answer = Answer::Driven(Drove { made, ending });
        check_line(&rt, rt.alloc(), answer, &buffer, line)?;
    }
    Ok(())
}

#[test]
fn verdicts_tell_the_order_or_the_ring(rt: HostRuntime) -> Result<(), Fail> {
    let buffer = [3, 0, 12, 255];
    let cases = [
        (Verdict::Runs(0), "runs"),
        (Verdict::Runs(3), "runs 3 0 12"),
        (Verdict::Runs(5), "runs 3 0 12 255"),
        (Verdict::Stuck(1), "stuck 3"),
        (Verdict::Stuck(2), "stuck 3 0"),
        (Verdict::Stuck(4), "stuck 3 0 12 255"),
    ];
    for (verdict, line) in cases {
        check_line(&rt, rt.alloc(), Answer::Judged(verdict), &buffer, line)?;
    }
    Ok(())
}

#[test]
fn restarts_and_places(rt: HostRuntime) -> Result<(), Fail> {
    check_line(&rt, rt.alloc(), Answer::Restarted, &[1], "restarted")?;
    check_line(&rt, rt.alloc(), Answer::Place(1), &[7], "latest 1")?;
    check_line(&rt, rt.alloc(), Answer::Place(4096), &[], "latest 4096")
}

#[test]
fn refusals_tell_their_numbers(rt: HostRuntime) -> Result<(), Fail> {
    let fault = Fault {
        number: 17,
        instance: 2,
        event: 300,
        layer: 1,
    };
    let cases = [
        (Refusal::Spoiled(fault), "spoiled 17 2 300 1"),
        (Refusal::NoInstance, "refused 41"),
        (Refusal::NothingLeft, "refused 42"),
        (Refusal::MustWait(0), "refused 43 0"),
        (Refusal::MustWait(31), "refused 43 31"),
        (Refusal::ShortBuffer, "refused 44"),
        (Refusal::NoEvent, "refused 45"),
        (Refusal::HasRun, "refused 46"),
        (Refusal::NoFullOrder, "refused 47"),
    ];
    for (refusal, line) in cases {
        check_line(&rt, rt.alloc(), Answer::Refused(refusal), &[5, 6], line)?;
    }
    Ok(())
}

// A turn that was answered so, with three bytes in its buffer.
fn turn(heap: Global, call: Call, answer: Option<Answer>) -> Result<Turn, AllocError> {
    let buffer = vec![in heap; 2, 0, 1]?;
    Ok(Turn {
        call,
        buffer,
        answer,
    })
}

#[test]
fn turns_have_their_lines_in_order(rt: HostRuntime) -> Result<(), Fail> {
    let heap = rt.alloc();
    let drove = Drove {
        made: 2,
        ending: Ending::Count,
    };
    let turns = vec![in heap;
        turn(heap, Call::Drive(2), Some(Answer::Driven(drove)))?,
        // made by no run
        turn(heap, Call::Restart, None)?,
        turn(heap, Call::Judge, Some(Answer::Judged(Verdict::Runs(3))))?,
        turn(heap, Call::Step(2), Some(Answer::Refused(Refusal::MustWait(1))))?,
    ]?;
    let lines = reply_lines(heap, turns.as_slice(), &[])?;
    assert_eq!(rt;
        lines.as_str(),
        "drove 2 count 2 0\nruns 2 0 1\nrefused 43 1\n"
    );
    Ok(())
}

// A log with so many calls before it, that was answered so.
fn log(
    heap: Global,
    after: usize,
    answer: Option<Result<LogVerdict, LogRefusal>>,
) -> Result<Log, AllocError> {
    let bytes = vec![in heap; 7]?;
    Ok(Log {
        after,
        bytes,
        answer,
    })
}

#[test]
fn logs_have_their_lines_among_those_of_turns(rt: HostRuntime) -> Result<(), Fail> {
    let heap = rt.alloc();
    let turns = vec![in heap;
        turn(heap, Call::Restart, Some(Answer::Restarted))?,
        turn(
            heap,
            Call::Step(0),
            Some(Answer::Refused(Refusal::NoInstance))
        )?,
        turn(heap, Call::Latest(0, 0), Some(Answer::Place(5)))?,
    ]?;
    let refusal = LogRefusal::Record(4, LogCause::MustWait(9));
    let logs = vec![in heap;
        log(heap, 0, Some(Ok(LogVerdict::Full)))?,
        // not checked
        log(heap, 0, None)?,
        log(heap, 2, Some(Err(refusal)))?,
        log(heap, 2, Some(Ok(LogVerdict::Part)))?,
        log(heap, 3, Some(Err(LogRefusal::Record(0, LogCause::CutShort))))?,
    ]?;
    let lines = reply_lines(heap, turns.as_slice(), logs.as_slice())?;
    assert_eq!(rt;
        lines.as_str(),
        "full\nrestarted\nrefused 41\nrefused 43 4 9\npart\nlatest 5\nrefused 51 0\n"
    );
    Ok(())
}

#[test]
fn no_turn_has_no_line(rt: HostRuntime) -> Result<(), Fail> {
    assert_eq!(rt; reply_lines(rt.alloc(), &[], &[])?.as_str(), "");
    Ok(())
}

#[test]
fn refused_texts_tell_a_number_and_a_byte(rt: HostRuntime) -> Result<(), Fail> {
    let cases = [
        (Cause::BadByte, 0, "refused 21 at 0"),
        (Cause::PeerUnknown, 4095, "refused 26 at 4095"),
        (Cause::AfterEnd, 10, "refused 28 at 10"),
        (Cause::Chart(Rule::Lengths), 0, "refused 11 at 0"),
        (Cause::Chart(Rule::Repeated), 41, "refused 17 at 41"),
        (Cause::Chart(Rule::Unmatched), 65536, "refused 18 at 65536"),
    ];
    for (cause, byte, line) in cases {
        let text = text_refusal_line(rt.alloc(), TextFault::at(cause, byte))?;
        assert_eq!(rt; text.as_str(), line);
    }
    Ok(())
}
