ghost use Rattle.std.specs.Prelude.{◌≡◌, IfOk, Some, string_bytes};
ghost use Rattle.charts.specs.Faults.{fault_text};
ghost use Rattle.charts.specs.Sizes.{size_text};
ghost use Rattle.listings.specs.Lines.{event_line, kind_name, unreadable_line};

use charts::{Event, Fault, Kind, Peer, Summary};
use std::alloc::{AllocError, Global};
use std::fmt;

// The name of an event's kind, by its byte: every byte has an answer. A sound chart has no event without a kind.
pub fn kind_name(kind: u8) -> &'static str
    ensures { result.now ≡ kind_name kind }
{
    match Kind::try_from(kind) {
        Ok(kind) => kind.name(),
        Err(_) => "none",
    }
}

// The event at an index of an instance.
#[derive(Drop)]
pub(crate) struct Row {
    pub instance: usize,
    pub index: usize,
    pub event: Event,
}

impl fmt::Display for Row {
    ghost output = { λ row. Some (event_line row.instance row.index row.event) };

    fn fmt<W: fmt::Write>(&self, f: &mut fmt::Formatter<W>) -> fmt::Result {
        let kind = kind_name(self.event.kind);
        let peer = Peer::from(self.event.peer);
        write!(
            f,
            "{} {} {kind} {peer} {}",
            self.instance, self.index, self.event.number
        )
    }
}

// The line of the event at an index of an instance.
pub fn event_line(
    heap: Global,
    instance: usize,
    index: usize,
    event: Event,
) -> Result<String, AllocError>
    ensures { IfOk result (λ s. string_bytes s ≡ event_line instance index event) }
{
    Row {
        instance,
        index,
        event,
    }
    .to_string(heap)
}

// The line of a chart's size.
pub fn chart_line(heap: Global, size: Summary) -> Result<String, AllocError>
    ensures { IfOk result (λ s. string_bytes s ≡ size_text size) }
{
    format!(in heap; "{size}")
}

// The line of a spoiled chart.
pub fn fault_line(heap: Global, fault: Fault) -> Result<String, AllocError>
    ensures { IfOk result (λ s. string_bytes s ≡ fault_text fault) }
{
    format!(in heap; "{fault}")
}

// The line of a text that cannot be read.
pub fn unreadable_line(heap: Global, line: usize) -> Result<String, AllocError>
    ensures { IfOk result (λ s. string_bytes s ≡ unreadable_line line) }
{
    format!(in heap; "unreadable {line}")
}
