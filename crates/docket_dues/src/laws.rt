//! What is due, and what answers to all of it mean.
ghost use Rattle.docket_dues.specs.Answered.{AnswersCertify, AnswersShowSafe};
ghost use Rattle.docket_dues.specs.DueLaws.{DueLaws};
ghost use Rattle.nets.specs.Nets.{Limits, Net};
ghost use Rattle.std.specs.Prelude.{ℕ, List};

use bounds::Bound;

/// Does nothing: its contract is what is due, and in which order, for every net and list of zones.
pub fn dues_keep_laws<B: Bound>()
    ensures { (net : Net B) (listed : List (List ℕ)) → DueLaws net listed }
{}

/// Does nothing: its contract is that answers to all that is due are a certificate, and so show the
/// target safe, for every kind and net.
pub fn answers_make_a_certificate<B: Bound>()
    ensures certificate { (net : Net B) → Limits B.Bound.kind net →
        AnswersCertify B.Bound.kind net }
    ensures safe { (net : Net B) → Limits B.Bound.kind net → AnswersShowSafe B.Bound.kind net }
{}
