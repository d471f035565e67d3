//! What any account of runs must keep.
ghost use Rattle.nets.specs.Nets.{Net};
ghost use Rattle.nets.specs.Runs.{RunLaws};

use bounds::Bound;

/// Does nothing: its contract is the laws of runs, over every net of every kind.
pub fn runs_keep_laws<B: Bound>()
    ensures { (net : Net B) → RunLaws B.Bound.kind net }
{}
