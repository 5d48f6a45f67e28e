ghost use Rattle.tabletexts.specs.Outcome.{Answers};
ghost use Rattle.piletexts.specs.Blocks.{table_until};
ghost use Rattle.piletexts.specs.Lines.{lines_of};
ghost use Rattle.piles.specs.Applied.{applied, standing, tabled};
ghost use Rattle.piles.specs.Stack.{RefusalKeeps};

use crate::pile::Pile;
use piletexts::{Command, Lines, read_table};
use polls::Poll;
use std::alloc::Global;
use tables::Table;
use tabletexts::Unread;

impl Pile {
    // The table on the lines that follow, put on top.
    fn push_table<'t>(&mut self, heap: Global, lines: &mut Lines<'t>) -> Result<(), Unread>
        ensures tabled { Answers (λ _. standing self.new lines.new.number (lines_of lines.new.rest.now)) (tabled self.old (table_until lines.old.number (lines_of lines.old.rest.now))) result }
        ensures refused { RefusalKeeps result self.old self.new }
    {
        let table = read_table(heap, lines)?;
        self.push(
            heap,
            &Table::new(table.lengths.as_slice(), table.events.as_slice()),
        )
    }

    // Does what the command on the line that was read last says; a table is on the lines that follow it.
    // That line cannot be read where a chart that it wants is not on the stack; the stack then stays as it was. Want of memory says nothing.
    pub fn apply<'t>(
        &mut self,
        heap: Global,
        command: Command,
        lines: &mut Lines<'t>,
    ) -> Result<(), Unread>
        ensures applied { Answers (λ _. standing self.new lines.new.number (lines_of lines.new.rest.now)) (applied command (standing self.old lines.old.number (lines_of lines.old.rest.now))) result }
        ensures refused { RefusalKeeps result self.old self.new }
    {
        let line = lines.number();
        // A command is what a text said, and no function: a match says what each does.
        match command {
            Command::Table => self.push_table(heap, lines),
            Command::Poll(keypads, rounds) => self.push(
                heap,
                &Poll::new(usize::from(keypads), usize::from(rounds)),
            ),
            Command::After => self.join_after(heap, line),
            Command::Beside => self.join_beside(heap, line),
            Command::Recast(names) => self.recast(heap, line, names),
        }
    }
}
