ghost use Rattle.std.specs.Prelude.{◌≡◌, Some};
ghost use Rattle.charts.specs.Faults.{number_of, layer_of, fault_text};

use std::fmt;

// The rules that a chart may break.
#[derive(Clone, Copy, PartialEq, Eq, Hash, Debug)]
pub enum Rule {
    // at most 32 lengths
    Lengths,
    // at most 4,096 events
    Events,
    // the lengths sum to the events
    Sum,
    // an event is an output, an input or an action
    Kind,
    // its peer is an instance or the environment
    Peer,
    // its number is at most 4,095
    Number,
    // a message has one output and one input
    Repeated,
    // they stand on each other's peers
    Unmatched,
    // a join stays within the limits of a chart
    Limits,
    // names permute the instances
    Permutation,
    // a poll has at most 31 keypads and 32 rounds
    Poll,
}

// What finds a fault.
#[derive(Clone, Copy, PartialEq, Eq, Hash, Debug)]
pub enum Layer {
    Table,
    Poll,
    After,
    Beside,
    Recast,
}

// Why a chart is spoiled: the number of the broken rule, the event's place, and the number of the layer that found it.
// Both are numbers, since every implementation of `Chart` may have rules and layers of its own.
#[derive(Clone, Copy, PartialEq, Eq, Debug)]
pub struct Fault {
    pub number: u8,
    pub instance: u8,
    pub event: u16,
    pub layer: u8,
}

impl From<Rule> for u8 {
    ghost from_gives = { λ rule number. number ≡ number_of rule };

    fn from(rule: Rule) -> u8 {
        match rule {
            Rule::Lengths => 11,
            Rule::Events => 12,
            Rule::Sum => 13,
            Rule::Kind => 14,
            Rule::Peer => 15,
            Rule::Number => 16,
            Rule::Repeated => 17,
            Rule::Unmatched => 18,
            Rule::Limits => 31,
            Rule::Permutation => 32,
            Rule::Poll => 33,
        }
    }
}

impl From<Layer> for u8 {
    ghost from_gives = { λ layer number. number ≡ layer_of layer };

    fn from(layer: Layer) -> u8 {
        match layer {
            Layer::Table => 1,
            Layer::Poll => 2,
            Layer::After => 3,
            Layer::Beside => 4,
            Layer::Recast => 5,
        }
    }
}

impl Fault {
    // The fault at an event.
    pub fn at(layer: Layer, rule: Rule, instance: u8, event: u16) -> Fault
        ensures { result ≡ record { number = number_of rule; instance = instance; event = event; layer = layer_of layer } }
    {
        Fault {
            number: u8::from(rule),
            instance,
            event,
            layer: u8::from(layer),
        }
    }

    // The fault of a chart as a whole.
    pub fn of_whole(layer: Layer, rule: Rule) -> Fault
        ensures { result ≡ record { number = number_of rule; instance = 0; event = 0; layer = layer_of layer } }
    {
        Fault::at(layer, rule, 0, 0)
    }
}

impl fmt::Display for Fault {
    ghost output = { λ fault. Some (fault_text fault) };

    fn fmt<W: fmt::Write>(&self, f: &mut fmt::Formatter<W>) -> fmt::Result {
        write!(
            f,
            "spoiled {} {} {} {}",
            self.number, self.instance, self.event, self.layer
        )
    }
}
