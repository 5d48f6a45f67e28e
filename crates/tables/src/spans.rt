ghost use Rattle.std.specs.Prelude.{◌≡◌, ◌+◌, max, fold, filter};
ghost use Rattle.charts.specs.Events.{is_message};

use charts::Event;

// One more than the greatest message number, 0 without messages.
pub(crate) fn span_of(events: &[Event]) -> usize
    ensures { result ≡ fold (λ span e. max span (e.number + 1)) 0 (filter is_message events.now) }
{
    events
        .iter()
        .filter(|e| e.is_message())
        .fold(0, |span, e| span.max(usize::from(e.number) + 1))
}
