ghost use Rattle.std.specs.Prelude.{◌≡◌, List, length, Option};
ghost use Rattle.charts.specs.declared.parts.Event.{Event};
ghost use Rattle.charts.specs.declared.faults.Fault.{Fault};
ghost use Rattle.charts.specs.Lists.{count_of, event_of};
ghost use Rattle.charts.specs.Span.{span};
ghost use Rattle.charts.specs.Judged.{Judged, summed};

use crate::faults::Fault;
use crate::parts::{Event, Summary};

// A chart. Its meaning is a list of events for each instance, and its trouble: a fault, or none.
pub trait Chart {
    ghost lists: { Self → List (List Event) };

    ghost trouble: { Self → Option Fault };

    // Owed by every chart: without trouble the lists are sound, with trouble there are no instances.
    ghost sound: { (c : Self) → Judged (trouble c) (lists c) };

    // The chart's size, or its fault.
    fn summary(&self) -> Result<Summary, Fault>
        ensures { result ≡ summed (trouble self.now) (lists self.now) };

    // The number of events on instance i, 0 where there is no such instance: users rely on a number and an event for every argument.
    fn count(&self, i: usize) -> usize
        ensures { result ≡ count_of (lists self.now) i };

    // Event k of instance i, zeros where there is none.
    fn event(&self, i: usize, k: usize) -> Event
        ensures { result ≡ event_of (lists self.now) i k };

    // The number of instances.
    fn width(&self) -> usize
        ensures { result ≡ length (lists self.now) }
    {
        self.summary().map_or(0, |size| size.width)
    }

    // One more than the greatest message number, 0 without messages.
    fn span(&self) -> usize
        ensures { result ≡ span (lists self.now) }
    {
        self.summary().map_or(0, |size| size.span)
    }

    // The fault of a spoiled chart.
    fn fault(&self) -> Option<Fault>
        ensures { result ≡ trouble self.now }
    {
        self.summary().err()
    }
}
