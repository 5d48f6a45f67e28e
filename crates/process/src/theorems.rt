// The theorems, each as the promise of a function.
ghost use Rattle.process.specs.Agreement.{Agreement};
ghost use Rattle.process.specs.Examples.{Examples};
ghost use Rattle.process.specs.Exactly.{EverySoundChart};

// For the lists of any sound chart under the free medium: a list of actions is steps of the chart's process by the equations of
// Annex B exactly when some order has it as the actions of its events in turn; the process may then terminate exactly when that
// order is full; and it is, up to derivable equality, what the positions and the messages on the way give.
pub fn annex_b_allows_exactly_the_orders()
    ensures { EverySoundChart }
{}

// The operational rules and the equations of Annex B agree.
pub fn rules_and_equations_agree()
    ensures { Agreement }
{}

// The worked examples of Annex B: the three calculations with the state operator, and the chart of three instances.
pub fn worked_examples_of_annex_b()
    ensures { Examples }
{}
