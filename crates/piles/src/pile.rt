ghost use Rattle.std.specs.Prelude.{◌≡◌, [], ◌∷◌, Ok};
ghost use Rattle.std.specs.Option.{ok_or, option_map};
ghost use Rattle.tabletexts.specs.Outcome.{Answers};
ghost use Rattle.piles.specs.Stack.{Popped, PoppedTwo, RefusalKeeps, join_two, shown, top_of, turn_one};
ghost use Rattle.piles.specs.Meanings.{Makes, Meaning, after_meaning, beside_meaning, flat_meaning, meaning, recast_meaning};

use charts::Chart;
use flats::Flat;
use joins::{After, Beside};
use recasts::Recast;
use std::alloc::Global;
use std::marker::Model;
use tabletexts::Unread;

// A stack of charts. The last one is the top.
#[derive(Drop)]
pub struct Pile {
    charts: Vec<Flat>,
}

// A stack is seen as what its charts mean, the top first.
impl Model for Pile {
    ghost use Rattle.std.specs.Prelude.{List};
    ghost use Rattle.piles.specs.Meanings.{Meaning};

    ghost Value = { List Meaning };

    ghost use Rattle.piles.specs.Stack.{stack_of};

    ghost view = { λ p. stack_of p.charts.items };
}

impl Pile {
    pub fn new(heap: Global) -> Pile
        ensures { result ≡ [] }
    {
        Pile {
            charts: Vec::new(heap),
        }
    }

    // The chart on top, none where the stack is empty.
    pub fn top(&self) -> Option<&Flat>
        ensures { top_of self.now ≡ shown result }
    {
        self.charts.as_slice().last()
    }

    // The chart on top, taken out of the stack, none where that is empty.
    pub fn into_top(self) -> Option<Flat>
        ensures { top_of self ≡ option_map flat_meaning result }
    {
        let Pile { mut charts } = self;
        charts.pop()
    }

    // An owned copy of the chart, put on top. Want of memory says nothing.
    pub fn push<C: Chart>(&mut self, heap: Global, chart: &C) -> Result<(), Unread>
        ensures { Answers (λ _. self.new) (Ok (meaning (C.Chart.trouble chart.now) (C.Chart.lists chart.now) ∷ self.old)) result }
    {
        self.charts.push(Flat::new(heap, chart)?)?;
        Ok(())
    }

    // The chart on top, taken off; where there is none, the line that wants it cannot be read.
    // The line is the command's and comes with it: a pile kept from one text to the next has none. The heap is the caller's at each call.
    fn pop(&mut self, line: usize) -> Result<Flat, Unread>
        ensures { Popped line self.old result self.new }
    {
        self.charts.pop().ok_or(Unread::Line(line))
    }

    // The two upper charts, taken off, the lower one first; where there are not two, none is taken off, and the line that wants them cannot be read.
    fn pop_two(&mut self, line: usize) -> Result<(Flat, Flat), Unread>
        ensures { PoppedTwo line self.old result self.new }
    {
        if self.charts.len() < 2 {
            return Err(Unread::Line(line));
        }
        let upper = self.pop(line)?;
        let lower = self.pop(line)?;
        Ok((lower, upper))
    }

    // Two charts taken off, and put on top what `join` makes of the lower and the upper one.
    fn join<C: Chart + Drop, F: FnOnce(Flat, Flat) -> C>(
        &mut self,
        heap: Global,
        line: usize,
        join: F,
    ) -> Result<(), Unread>
        requires { F.IsAlwaysCallable join }
        ensures joined { (f : Meaning → Meaning → Meaning) → Makes f (F.post join) C.Chart.trouble C.Chart.lists → Answers (λ _. self.new) (ok_or (join_two f self.old) line) result }
        ensures refused { RefusalKeeps result self.old self.new }
    {
        let (lower, upper) = self.pop_two(line)?;
        self.push(heap, &join(lower, upper))
    }

    // Two charts taken off, and put on top the upper one after the other.
    pub(crate) fn join_after(&mut self, heap: Global, line: usize) -> Result<(), Unread>
        ensures joined { Answers (λ _. self.new) (ok_or (join_two after_meaning self.old) line) result }
        ensures refused { RefusalKeeps result self.old self.new }
    {
        self.join(heap, line, After::new)
    }

    // Two charts taken off, and put on top the upper one beside the other.
    pub(crate) fn join_beside(&mut self, heap: Global, line: usize) -> Result<(), Unread>
        ensures joined { Answers (λ _. self.new) (ok_or (join_two beside_meaning self.old) line) result }
        ensures refused { RefusalKeeps result self.old self.new }
    {
        self.join(heap, line, Beside::new)
    }

    // One chart taken off, and put on top with its instances renamed.
    pub(crate) fn recast(
        &mut self,
        heap: Global,
        line: usize,
        names: [u8; 32],
    ) -> Result<(), Unread>
        ensures turned { Answers (λ _. self.new) (ok_or (turn_one (recast_meaning names) self.old) line) result }
        ensures refused { RefusalKeeps result self.old self.new }
    {
        let chart = self.pop(line)?;
        self.push(heap, &Recast::new(chart, names))
    }
}
