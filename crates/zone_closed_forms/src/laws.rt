//! The closed forms are the predecessors, and how they may be worked out.
ghost use Rattle.zone_closed_forms.specs.Laws.{ClosedFormLaws};
ghost use Rattle.zone_closed_forms.specs.ClockRows.{ClockRowLaws};

use bounds::Bound;

/// Does nothing: its contract is that the closed forms are the normal form of what is narrowed and
/// both predecessors, and none just where there is none, for every kind.
pub fn closed_forms_are_predecessors<B: Bound>()
    ensures { ClosedFormLaws B.Bound.kind }
{}

/// Does nothing: its contract is that the closed forms may be worked out from the rows at a zone's
/// points alone, arc after arc, and by one form for every zone that can be asked for.
pub fn closed_forms_go_by_clock_rows<B: Bound>()
    ensures { ClockRowLaws B.Bound.kind }
{}
