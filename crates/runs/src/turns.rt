ghost use Rattle.std.specs.Prelude.{ℕ, List};
ghost use Rattle.runs.specs.Runs.{fault_of, lists_of, KeepsChart, StandsAfter};
ghost use Rattle.runs.specs.Made.{MakesCall, Makes};

use crate::calls::{Answer, Call, Turn};
use crate::run::Run;
use media::Medium;

// Makes a call with the buffer that it is handed.
fn make_call<M: Medium>(run: &mut Run<M>, call: Call, buffer: &mut [u8]) -> Answer
    ensures keeps { KeepsChart run.old run.new }
    ensures makes { (h : List ℕ) → StandsAfter run.old h → MakesCall (fault_of run.old) (M.carries run.old.medium) (lists_of run.old) h call buffer.old result buffer.new run.new.board.rows.table }
{
    // A call is data with its arguments, and no function: a match says what each makes.
    match call {
        Call::Step(i) => run.step(i).map_or_else(Answer::Refused, Answer::Stepped),
        Call::Drive(n) => run
            .drive(n, buffer)
            .map_or_else(Answer::Refused, Answer::Driven),
        Call::Restart => run
            .restart()
            .map_or_else(Answer::Refused, |()| Answer::Restarted),
        Call::Judge => run
            .judge(buffer)
            .map_or_else(Answer::Refused, Answer::Judged),
        Call::Latest(i, k) => run.latest(i, k).map_or_else(Answer::Refused, Answer::Place),
    }
}

// Makes the call of the turn, and notes its answer.
pub(crate) fn take_turn<M: Medium>(run: &mut Run<M>, turn: &mut Turn)
    ensures keeps { KeepsChart run.old run.new }
    ensures makes { (h : List ℕ) → StandsAfter run.old h → Makes (fault_of run.old) (M.carries run.old.medium) (lists_of run.old) h turn.old turn.new run.new.board.rows.table }
{
    let call = turn.call;
    let answer = make_call(run, call, turn.buffer.as_mut_slice());
    turn.answer = Some(answer);
}
