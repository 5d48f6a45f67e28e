ghost use Rattle.std.specs.Prelude.{◌≡◌, [], IfOk};
ghost use Rattle.media.specs.Media.{free};
ghost use Rattle.buses.specs.Carried.{carried};
ghost use Rattle.piletexts.specs.Blocks.{text_until};
ghost use Rattle.piletexts.specs.Lines.{lines_of};
ghost use Rattle.piles.specs.Applied.{standing};
ghost use Rattle.plays.specs.Troubles.{Answers};
ghost use Rattle.plays.specs.ChartTexts.{texted};
ghost use Rattle.scripts.specs.Hex.{bytes_of};
ghost use Rattle.scripts.specs.Statements.{said};
ghost use Rattle.plays.specs.Turns.{content, untaken};
ghost use Rattle.plays.specs.Logs.{log_content, unchecked};
ghost use Rattle.plays.specs.Plans.{fresh, changed, plan_of};
ghost use Rattle.plays.specs.Scripts.{script_of};
ghost use Rattle.plays.specs.Followed.{followed, has_chart, state};
ghost use Rattle.plays.specs.Scripted.{ended};

use crate::drawing::push_chart;
use crate::parts::{Log, Part, Script, Unplayed};
use buses::Bus;
use piles::Pile;
use piletexts::Lines;
use runs::{Call, Turn};
use scripts::{MediumCommand, Statement, hex_bytes};
use std::alloc::{AllocError, Global};

// What the lines of a script that were read so far say.
#[derive(Drop)]
pub(crate) struct Draft {
    // the part that was begun last
    part: Part,
    pile: Pile,
    bus: Bus,
    turns: Vec<Turn>,
    logs: Vec<Log>,
}

// A turn that is still to be taken, with a buffer of zeros.
fn new_turn(heap: Global, call: Call, room: usize) -> Result<Turn, AllocError>
    ensures { IfOk result (λ turn. content turn ≡ untaken call room) }
{
    Ok(Turn {
        call,
        buffer: vec![in heap; 0u8; room]?,
        answer: None,
    })
}

// A log that is still to be checked, of the bytes that these digits write.
fn new_log(heap: Global, after: usize, digits: &[u8]) -> Result<Log, AllocError>
    ensures { IfOk result (λ log. log_content log ≡ unchecked after (bytes_of digits.now)) }
{
    Ok(Log {
        after,
        bytes: hex_bytes(heap, digits)?,
        answer: None,
    })
}

// The medium after a command to it.
fn change(bus: Bus, command: MediumCommand) -> Bus
    ensures { carried result ≡ changed (carried bus) command }
{
    match command {
        MediumCommand::Free => Bus::free(),
        MediumCommand::Line => Bus::line(),
        MediumCommand::Narrow(room) => bus.narrow(room),
    }
}

impl Draft {
    pub(crate) fn new(heap: Global) -> Draft
        ensures { (plan_of result ≡ fresh) × (result.pile ≡ []) }
    {
        Draft {
            part: Part::Pile,
            pile: Pile::new(heap),
            bus: Bus::free(),
            turns: Vec::new(heap),
            logs: Vec::new(heap),
        }
    }

    // Whether there is a chart to run.
    fn has_chart(&self) -> bool
        ensures { result ≡ has_chart self.now.pile }
    {
        self.pile.top().is_some()
    }

    // The chart of the text on the lines that follow, put on top.
    fn push_text<'t>(&mut self, heap: Global, lines: &mut Lines<'t>) -> Result<(), Unplayed>
        ensures stacks { Answers (λ _. standing self.new.pile lines.new.number (lines_of lines.new.rest.now)) (texted self.old.pile (text_until lines.old.number (lines_of lines.old.rest.now))) result }
        ensures keeps { plan_of self.new ≡ plan_of self.old }
    {
        let Some(text) = lines.take_text() else {
            return Err(Unplayed::Line(lines.number() + 1));
        };
        push_chart(&mut self.pile, heap, text)
    }

    // Does what the statement on the line that was read last says; a table and a chart text are on the lines that follow it.
    // That line cannot be read where a later part was begun before, or where a medium, a log or a call has no chart. Want of memory says nothing.
    pub(crate) fn follow<'t>(
        &mut self,
        heap: Global,
        statement: Statement<'t>,
        lines: &mut Lines<'t>,
    ) -> Result<(), Unplayed>
        ensures { Answers (λ _. state (plan_of self.new) (standing self.new.pile lines.new.number (lines_of lines.new.rest.now))) (followed (said statement.entry) (plan_of self.old) (standing self.old.pile lines.old.number (lines_of lines.old.rest.now))) result }
    {
        match (statement, self.part) {
            (Statement::Pile(command), Part::Pile) => Ok(self.pile.apply(heap, command, lines)?),
            (Statement::Text, Part::Pile) => self.push_text(heap, lines),
            (Statement::Medium(command), Part::Pile | Part::Medium) if self.has_chart() => {
                self.part = Part::Medium;
                self.bus = change(self.bus, command);
                Ok(())
            }
            (Statement::Call(call, room), _) if self.has_chart() => {
                self.part = Part::Calls;
                self.turns.push(new_turn(heap, call, room)?)?;
                Ok(())
            }
            (Statement::Log(digits), _) if self.has_chart() => {
                self.part = Part::Calls;
                let log = new_log(heap, self.turns.len(), digits)?;
                self.logs.push(log)?;
                Ok(())
            }
            (_, _) => Err(Unplayed::Line(lines.number())),
        }
    }

    // The script, where there is a chart; else it is missing on this line.
    pub(crate) fn finish(self, line: usize) -> Result<Script, Unplayed>
        ensures { Answers script_of (ended line (plan_of self) self.pile) result }
    {
        let Draft {
            part: _,
            pile,
            bus,
            turns,
            logs,
        } = self;
        let Some(chart) = pile.into_top() else {
            return Err(Unplayed::Line(line));
        };
        Ok(Script {
            chart,
            bus,
            turns,
            logs,
        })
    }
}
