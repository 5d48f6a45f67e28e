use bench::{Outcome, Row};
use runs::{Answer, Drove, Ending, Refusal, Verdict};
use std::test::Fail;

// The answer that tells of the outcome, and the bytes that are written with it.
fn told(outcome: Outcome) -> (Answer, &'static [u8]) {
    match outcome {
        Outcome::Runs(order) => (Answer::Judged(Verdict::Runs(order.len())), order),
        Outcome::Stuck { end: _, ring } => (Answer::Judged(Verdict::Stuck(ring.len())), ring),
        Outcome::Place(place) => (Answer::Place(place), &[]),
        Outcome::Drove { steps, ending } => {
            let made = steps.len();
            (Answer::Driven(Drove { made, ending }), steps)
        }
    }
}

#[test]
fn every_row_answers_its_outcome(rt: HostRuntime) -> Result<(), Fail> {
    for row in Row::ALL {
        let turn = row.play(vec![in rt.alloc(); 9u8; 32]?);
        let (answer, bytes) = told(row.outcome());
        assert_eq!(rt; turn.answer, Some(answer), "{row:?}");
        assert!(rt; turn.buffer.as_slice().starts_with(bytes), "{row:?}");
        let kept = turn.buffer.iter().skip(bytes.len()).all(|b| *b == 9);
        assert!(rt; kept, "{row:?}");
    }
    Ok(())
}

#[test]
fn rows_with_a_short_buffer(rt: HostRuntime) -> Result<(), Fail> {
    let short = Some(Answer::Refused(Refusal::ShortBuffer));
    let finished = Some(Answer::Driven(Drove {
        made: 4,
        ending: Ending::Finished,
    }));
    let cases = [
        (Row::Empty, 31, short),
        (Row::Cross, 31, short),
        (Row::OverFree, 0, short),
        (Row::PollDriven, 3, short),
        (Row::PollDriven, 4, finished),
        (Row::LateSound, 0, Some(Answer::Place(5))),
    ];
    for (row, room, answer) in cases {
        let turn = row.play(vec![in rt.alloc(); 0u8; room]?);
        assert_eq!(rt; turn.answer, answer, "{row:?} with {room}");
    }
    Ok(())
}
