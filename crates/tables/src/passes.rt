ghost use Rattle.std.specs.Prelude.{◌≡◌, ℕ, ◌+◌, ◌<◌, length, IfOk, None, Option, slice_index_or};
ghost use Rattle.charts.specs.Events.{no_event};
ghost use Rattle.charts.specs.declared.parts.Event.{Event};
ghost use Rattle.checks.specs.Cut.{instance_of};
ghost use Rattle.checks.specs.Rules.{well_formed, not_repeated, joins, matched};
ghost use Rattle.checks.specs.Checked.{checked, scan};
ghost use Rattle.tables.specs.Findings.{misformed, repeated, unmatched, Finds, Breaks, Tells};
ghost use Rattle.tables.specs.Seen.{Seen};

use crate::layout::Layout;
use charts::{Event, Fault, Kind, Layer, MOST_NUMBER, Peer, Rule};
use messages::{End, MessagePlaces};

// Whether an event is well formed, or the first rule on its kind, peer and number that it breaks, the same at any place.
fn check_form(width: usize, e: Event) -> Result<(), Rule>
    ensures { Breaks (well_formed width 0 e) result }
{
    match (Kind::try_from(e.kind), Peer::from(e.peer)) {
        (Err(_), _) => return Err(Rule::Kind),
        (Ok(_), Peer::Environment) => {}
        (Ok(Kind::Output | Kind::Input), Peer::Instance(i)) if usize::from(i) < width => {}
        (Ok(_), Peer::Instance(_)) => return Err(Rule::Peer),
    }
    if e.number > MOST_NUMBER {
        return Err(Rule::Number);
    }
    Ok(())
}

impl Layout<'_, '_> {
    // The fault at the first event of which `check` tells a rule.
    fn check_each<F: Fn(usize, Event) -> Result<(), Rule>>(&self, check: F) -> Result<(), Fault>
        requires { F.IsAlwaysCallable check }
        ensures { (rule : ℕ → Event → Option ℕ) → Tells rule (F.post check) → Finds (scan rule self.now.lengths.now 0 self.now.events.now) result }
    {
        for (k, e) in self.events.iter().enumerate() {
            // `map_err` with `?` was tried, and the proof didn't close: nothing is known of what a closure over `blame` answers.
            if let Err(rule) = check(k, *e) {
                return Err(self.blame(k, rule));
            }
        }
        Ok(())
    }

    // The events one by one for their form.
    fn check_forms(&self) -> Result<(), Fault>
        ensures { Finds (misformed self.now.lengths.now self.now.events.now) result }
    {
        self.check_each(|_, e| check_form(self.lengths.len(), e))
    }

    // Where the messages stand, if no event is the second of its message and kind. It changes what it makes as it goes, so it is no `check_each`.
    fn index_messages(&self) -> Result<MessagePlaces, Fault>
        requires formed { misformed self.now.lengths.now self.now.events.now ≡ None }
        ensures repeats { Finds (repeated self.now.lengths.now self.now.events.now) result }
        ensures places { IfOk result (λ p. Seen self.now.events.now (length self.now.events.now) p) }
    {
        let mut places = MessagePlaces::new();
        for k in 0..self.events.len() {
            if let Err(rule) = self.note_message(k, &mut places) {
                return Err(self.blame(k, rule));
            }
        }
        Ok(places)
    }

    // Notes where event k stands, if it is of a message, and not the second of its kind.
    fn note_message(&self, k: usize, places: &mut MessagePlaces) -> Result<(), Rule>
        requires within { k < length self.now.events.now }
        requires formed { misformed self.now.lengths.now self.now.events.now ≡ None }
        requires seen { Seen self.now.events.now k places.old }
        ensures repeats { Breaks (not_repeated self.now.events.now k (slice_index_or self.now.events.now k no_event)) result }
        ensures seen { IfOk result (λ _. Seen self.now.events.now (k + 1) places.new) }
    {
        let e = self.events[k];
        if let Some(end) = End::of(e) {
            if places.find(end, e.number).is_some() {
                return Err(Rule::Repeated);
            }
            places.note(end, e.number, k as u16);
        }
        Ok(())
    }

    // Whether the event at p is on instance i, and its peer is the instance of event k. The peer's byte itself: 255 is no instance of a chart.
    fn is_joined(&self, p: usize, i: usize, k: usize) -> bool
        requires { p < length self.now.events.now }
        ensures { result ≡ joins self.now.lengths.now self.now.events.now p i (instance_of self.now.lengths.now k) }
    {
        self.locate(p).instance == i && usize::from(self.events[p].peer) == self.locate(k).instance
    }

    // Whether event k, e, is of no message or has its match: no other event with the environment, else the other end on its peer.
    fn check_match(&self, k: usize, e: Event, places: &MessagePlaces) -> Result<(), Rule>
        requires { Seen self.now.events.now (length self.now.events.now) places.now }
        ensures { Breaks (matched self.now.lengths.now self.now.events.now k e) result }
    {
        let Some(end) = End::of(e) else {
            return Ok(());
        };
        match (Peer::from(e.peer), places.find(end.other(), e.number)) {
            (Peer::Environment, None) => Ok(()),
            (Peer::Instance(i), Some(p)) if self.is_joined(usize::from(p), usize::from(i), k) => {
                Ok(())
            }
            _ => Err(Rule::Unmatched),
        }
    }

    // The events one by one for their matches.
    fn check_matches(&self, places: &MessagePlaces) -> Result<(), Fault>
        requires { Seen self.now.events.now (length self.now.events.now) places.now }
        ensures { Finds (unmatched self.now.lengths.now self.now.events.now) result }
    {
        self.check_each(|k, e| self.check_match(k, e, places))
    }
}

// Whether the table is sound, or what is wrong with it.
pub(crate) fn check(lengths: &[u16], events: &[Event]) -> Result<(), Fault>
    ensures { Finds (checked lengths.now events.now) result }
{
    let layout = Layout::new(lengths, events).map_err(|rule| Fault::of_whole(Layer::Table, rule))?;
    layout.check_forms()?;
    let places = layout.index_messages()?;
    layout.check_matches(&places)
}
