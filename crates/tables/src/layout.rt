ghost use Rattle.std.specs.Prelude.{◌≡◌, ◌<◌, ◌≤◌, length, sum, Some, MatchResult};
ghost use Rattle.charts.specs.Faults.{number_of};
ghost use Rattle.checks.specs.Cut.{instance_of, index_of};
ghost use Rattle.checks.specs.Checked.{table_fault, checked};

use charts::{Event, Fault, Layer, MOST_EVENTS, MOST_INSTANCES, Rule};

// Where an event of a table stands: its instance, and its index there.
#[derive(Clone, Copy)]
pub(crate) struct Place {
    pub(crate) instance: usize,
    pub(crate) index: usize,
}

// The lengths and the events of a table that is within the limits of a chart.
#[derive(Clone, Copy)]
pub(crate) struct Layout<'l, 'e> {
    pub(crate) lengths: &'l [u16],
    pub(crate) events: &'e [Event],
    ghost few: { length lengths.now ≤ 32 },
    ghost short: { length events.now ≤ 4096 },
    ghost even: { sum lengths.now ≡ length events.now },
}

impl<'l, 'e> Layout<'l, 'e> {
    // The layout of the two slices, or the first rule on them as a whole that they break.
    pub(crate) fn new(lengths: &'l [u16], events: &'e [Event]) -> Result<Layout<'l, 'e>, Rule>
        ensures { MatchResult result (λ t. (t.lengths.now ≡ lengths.now) × (t.events.now ≡ events.now)) (λ rule. checked lengths.now events.now ≡ Some (table_fault (number_of rule) 0 0)) }
    {
        if lengths.len() > MOST_INSTANCES {
            return Err(Rule::Lengths);
        }
        if events.len() > MOST_EVENTS {
            return Err(Rule::Events);
        }
        if total(lengths) != events.len() {
            return Err(Rule::Sum);
        }
        Ok(Layout { lengths, events })
    }

    // The place of the event at; past the events the number of instances, as the table's rules have it.
    pub(crate) fn locate(&self, at: usize) -> Place
        ensures instance { result.instance ≡ instance_of self.now.lengths.now at }
        ensures index { result.index ≡ index_of self.now.lengths.now at }
    {
        let mut left = at;
        for (i, n) in self.lengths.iter().enumerate() {
            let n = usize::from(*n);
            if left < n {
                return Place {
                    instance: i,
                    index: left,
                };
            }
            left -= n;
        }
        Place {
            instance: self.lengths.len(),
            index: left,
        }
    }

    // The fault at the event at.
    pub(crate) fn blame(&self, at: usize, rule: Rule) -> Fault
        requires { at < length self.now.events.now }
        ensures { result ≡ table_fault (number_of rule) (instance_of self.now.lengths.now at) (index_of self.now.lengths.now at) }
    {
        let place = self.locate(at);
        Fault::at(Layer::Table, rule, place.instance as u8, place.index as u16)
    }
}

// The sum of the lengths.
pub(crate) fn total(lengths: &[u16]) -> usize
    requires { length lengths.now ≤ 32 }
    ensures { result ≡ sum lengths.now }
{
    lengths.iter().map(|n| usize::from(*n)).sum()
}
