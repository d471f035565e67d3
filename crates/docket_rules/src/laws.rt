//! What lists of calls come to.
ghost use Rattle.nets.specs.Nets.{Limits, Net};
ghost use Rattle.docket_rules.specs.Promise.{Promise};
ghost use Rattle.docket_rules.specs.Calls.{Sound};
ghost use Rattle.docket_rules.specs.Logs.{Log};
ghost use Rattle.docket_rules.specs.Reached.{CallLaws, ReachedByCalls};
ghost use Rattle.docket_rules.specs.Worlds.{World};

use bounds::Bound;

/// Does nothing: its contract is what is promised of every list of calls from a blank docket, for
/// every kind and lawful net.
pub fn seals_keep_promises<B: Bound>()
    ensures { (net : Net B) → Limits B.Bound.kind net → Promise B.Bound.kind net }
{}

/// Does nothing: its contract is that one call after another leads to what is promised, and that
/// each has one answer alone and leaves one docket and one book.
pub fn calls_keep_laws<B: Bound>()
    ensures { (net : Net B) → Limits B.Bound.kind net → CallLaws B.Bound.kind net }
{}

/// Does nothing: its contract is that wherever calls lead, the pages are as open and post left
/// them, and the item that is due is one of those that there are.
pub fn calls_keep_pages<B: Bound>()
    ensures { (net : Net B) → Limits B.Bound.kind net → (log : Log B) (w : World B) →
        ReachedByCalls B.Bound.kind net log w → Sound B.Bound.kind net w }
{}
