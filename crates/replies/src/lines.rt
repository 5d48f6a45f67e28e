ghost use Rattle.std.specs.Prelude.{◌≡◌, IfOk, Some, drop, string_bytes, take};
ghost use Rattle.replies.specs.AnswerLines.{answer_line};
ghost use Rattle.replies.specs.TurnLines.{turn_lines};
ghost use Rattle.replies.specs.ScriptLines.{checked, script_lines};

use crate::answers::Reply;
use loglines::Said;
use logs::{Refusal, Verdict};
use plays::Log;
use runs::{Answer, Turn};
use std::alloc::{AllocError, Global};
use std::fmt;

// Turns, shown by a line for each that was answered.
#[derive(Drop)]
struct Replies<'t>(&'t [Turn]);

impl<'t> fmt::Display for Replies<'t> {
    ghost output = { λ r. Some (turn_lines r.0.now) };

    #[tactic(auto, using(crate::proofs::Writing::written_more))]
    fn fmt<W: fmt::Write>(&self, f: &mut fmt::Formatter<W>) -> fmt::Result {
        for turn in self.0 {
            if let Some(answer) = turn.answer {
                let buffer = turn.buffer.as_slice();
                writeln!(f, "{}", Reply { answer, buffer })?;
            }
        }
        Ok(())
    }
}

// What a log is, shown by a line if it was checked.
#[derive(Drop)]
struct Checked(Option<Result<Verdict, Refusal>>);

impl fmt::Display for Checked {
    ghost output = { λ r. Some (checked r.0) };

    fn fmt<W: fmt::Write>(&self, f: &mut fmt::Formatter<W>) -> fmt::Result {
        match self.0 {
            Some(said) => writeln!(f, "{}", Said(said)),
            None => Ok(()),
        }
    }
}

// The first turns, at most so many, and the others.
fn split(turns: &[Turn], most: usize) -> (&[Turn], &[Turn])
    ensures { (result.0.now ≡ take most turns.now) × (result.1.now ≡ drop most turns.now) }
{
    turns.split_at(most.min(turns.len()))
}

// The calls and the logs of a script, shown by their lines.
#[derive(Drop)]
struct Script<'t> {
    turns: &'t [Turn],
    logs: &'t [Log],
}

impl<'t> fmt::Display for Script<'t> {
    ghost output = { λ r. Some (script_lines r.turns.now r.logs.now) };

    fn fmt<W: fmt::Write>(&self, f: &mut fmt::Formatter<W>) -> fmt::Result {
        let mut shown = 0;
        let mut left = self.turns;
        for log in self.logs {
            let (before, behind) = split(left, log.after.saturating_sub(shown));
            write!(f, "{}{}", Replies(before), Checked(log.answer))?;
            shown = log.after;
            left = behind;
        }
        write!(f, "{}", Replies(left))
    }
}

// The line of an answer and of the instances that the call wrote at the start of its buffer, without a line feed.
pub fn reply_line(heap: Global, answer: Answer, buffer: &[u8]) -> Result<String, AllocError>
    ensures { IfOk result (λ s. string_bytes s ≡ answer_line answer buffer.now) }
{
    Reply { answer, buffer }.to_string(heap)
}

// The lines of the turns and the logs of a script in their order, each with a line feed. What has no answer has no line.
pub fn reply_lines(heap: Global, turns: &[Turn], logs: &[Log]) -> Result<String, AllocError>
    ensures { IfOk result (λ s. string_bytes s ≡ script_lines turns.now logs.now) }
{
    Script { turns, logs }.to_string(heap)
}
