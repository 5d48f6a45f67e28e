ghost use Rattle.std.specs.Prelude.{◌≡◌, Some, take};
ghost use Rattle.replies.specs.AnswerLines.{answer_line, each_after_a_space, ending_word};

use crate::refusals::Told;
use charts::Peer;
use listings::kind_name;
use runs::{Answer, Ending, Verdict};
use std::fmt;

// Instances, shown with a space before each.
#[derive(Drop)]
struct Instances<'b>(&'b [u8]);

impl<'b> Instances<'b> {
    // The instances that a call wrote at the start of its buffer; all that it holds where they are fewer, which no call answers.
    fn written(count: usize, buffer: &'b [u8]) -> Instances<'b>
        ensures { result.0.now ≡ take count buffer.now }
    {
        Instances(&buffer[..count.min(buffer.len())])
    }
}

impl<'b> fmt::Display for Instances<'b> {
    ghost output = { λ r. Some (each_after_a_space r.0.now) };

    #[tactic(auto, using(crate::proofs::Writing::written_more))]
    fn fmt<W: fmt::Write>(&self, f: &mut fmt::Formatter<W>) -> fmt::Result {
        for instance in self.0 {
            write!(f, " {instance}")?;
        }
        Ok(())
    }
}

// How a drive ended, in a word.
fn ending_word(ending: Ending) -> &'static str
    ensures { result.now ≡ ending_word ending }
{
    match ending {
        Ending::Finished => "finished",
        Ending::Count => "count",
        Ending::Stuck => "stuck",
    }
}

// What a call answered, with the buffer that it was handed.
#[derive(Drop)]
pub(crate) struct Reply<'b> {
    pub answer: Answer,
    pub buffer: &'b [u8],
}

impl<'b> fmt::Display for Reply<'b> {
    ghost output = { λ r. Some (answer_line r.answer r.buffer.now) };

    #[tactic(auto, using(crate::proofs::Writing::word_before))]
    fn fmt<W: fmt::Write>(&self, f: &mut fmt::Formatter<W>) -> fmt::Result {
        match self.answer {
            Answer::Stepped(event) => {
                let kind = kind_name(event.kind);
                let peer = Peer::from(event.peer);
                write!(f, "stepped {kind} {peer} {}", event.number)
            }
            Answer::Driven(drove) => {
                let word = ending_word(drove.ending);
                let instances = Instances::written(drove.made, self.buffer);
                write!(f, "drove {} {word}{instances}", drove.made)
            }
            Answer::Restarted => f.write_str("restarted"),
            Answer::Judged(Verdict::Runs(length)) => {
                write!(f, "runs{}", Instances::written(length, self.buffer))
            }
            Answer::Judged(Verdict::Stuck(length)) => {
                write!(f, "stuck{}", Instances::written(length, self.buffer))
            }
            Answer::Place(place) => write!(f, "latest {place}"),
            Answer::Refused(refusal) => write!(f, "{}", Told(refusal)),
        }
    }
}
