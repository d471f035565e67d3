// What holds of every normal form.
ghost use Rattle.zone_walks.specs.NormalForms.{NormalFormLaws};

use bounds::Bound;

/// Does nothing: its contract is that normal forms exist, are unique and are met by the same ages,
/// for every kind.
pub fn normal_forms_keep_laws<B: Bound>()
    ensures { NormalFormLaws B.Bound.kind }
{}
