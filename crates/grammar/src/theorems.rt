ghost use Rattle.grammar.specs.Exact.{EveryText};
ghost use Rattle.grammar.specs.Plain.{EveryChart};

// A text writes the chart that is read of it, and no other.
pub fn a_text_writes_what_is_read_of_it()
    ensures { EveryText }
{}

// Each chart whose names are words, and none of them the grammar's, has a text.
pub fn every_chart_has_a_text()
    ensures { EveryChart }
{}
