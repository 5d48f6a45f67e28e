ghost use Rattle.std.specs.Prelude.{◌≡◌, ℕ, List, length, IsTrue, ◌↔◌};
ghost use Rattle.charts.specs.Lists.{size};
ghost use Rattle.runs.specs.Drives.{Done};
ghost use Rattle.runs.specs.Nexts.{NextAnswers};
ghost use Rattle.runs.specs.Runs.{fault_of, lists_of, medium_of, StandsAfter};

use crate::run::Run;
use charts::{Event, Fault};
use media::Medium;

impl<M: Medium> Run<M> {
    // The fault of a spoiled chart.
    pub fn fault(&self) -> Option<Fault>
        ensures { result ≡ fault_of self.now }
    {
        self.board.fault()
    }

    // The number of instances of its chart.
    pub fn width(&self) -> usize
        ensures { result ≡ length (lists_of self.now) }
    {
        self.board.width()
    }

    // The number of events of its chart.
    pub fn events(&self) -> usize
        ensures { result ≡ size (lists_of self.now) }
    {
        self.board.events()
    }

    // The next event of instance i, none where there is no such instance or it has finished.
    pub fn next(&self, i: usize) -> Option<Event>
        ensures { (h : List ℕ) → StandsAfter self.now h → NextAnswers (lists_of self.now) h i result }
    {
        let slot = self.board.next(i)?;
        Some(slot.event)
    }

    // Whether all events have run.
    pub fn is_done(&self) -> bool
        ensures { (h : List ℕ) → StandsAfter self.now h → IsTrue result ↔ Done (lists_of self.now) h }
    {
        self.board.lowest_unfinished().is_none()
    }

    // Its medium.
    pub fn into_medium(self) -> M
        ensures { result ≡ medium_of self }
    {
        let Run { board: _, medium } = self;
        medium
    }
}
