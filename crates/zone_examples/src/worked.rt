// Small zones worked out by hand, as the rules have them.
ghost use Rattle.zone_examples.specs.WorkedExamples.{WorkedExamples};

use bounds::Bound;

/// Does nothing: its contract is that the worked examples hold, for every kind.
pub fn worked_examples_hold<B: Bound>()
    ensures { WorkedExamples B.Bound.kind }
{}
