// Small cases of the rules, each an equation between definitions that the contracts of the other
// crates cite, proved together.
#![tactic(auto)]

ghost use Rattle.pairs.specs.Log.{LogExamples};
ghost use Rattle.pairs.specs.Pairs.{CheckedPairs};

// The checked pairs, as one table.
pub fn pairs_hold()
    ensures { CheckedPairs }
{}

// A small log with three copies, and what is asked of it.
pub fn log_examples_hold()
    ensures { LogExamples }
{}
