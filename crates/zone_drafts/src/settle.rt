// Bringing a draft to normal form by rounds of elimination.
ghost use Rattle.zone_cells.specs.Cells.{in_draft, relaxed_cells};
ghost use Rattle.zone_cells.specs.Settling.{Settles};
ghost use Rattle.std.specs.Prelude.{◌≡◌, if◌then◌else◌, is_ok};

use crate::draft::{bound_at, relax};
use bounds::Bound;

/// Some closed walk is below zero.
#[derive(Clone, Copy, PartialEq, Eq, Debug)]
pub struct Inconsistent;

// A round, unless the pivot's bound to itself is below zero: then some closed walk is.
fn settle_point<B: Bound>(cells: &mut [B], points: u8, pivot: u8) -> Result<(), Inconsistent>
    ensures answer { is_ok result ≡ B.Bound.kind.at_most B.Bound.kind.zero
        (in_draft B.Bound.kind cells.old pivot pivot) }
    ensures cells { cells.new ≡ (if is_ok result
        then relaxed_cells B.Bound.kind points pivot cells.old else cells.old) }
{
    if !B::zero().at_most(bound_at(cells, pivot, pivot)) {
        return Err(Inconsistent);
    }
    relax(cells, points, pivot);
    Ok(())
}

/// Brings a draft to normal form where only ways through the pivots can be less than a bound
/// itself, and answers whether it is consistent. For bounds that nothing is known of, every point
/// is a pivot.
pub fn settle<B: Bound>(cells: &mut [B], points: u8, pivots: &[u8]) -> Result<(), Inconsistent>
    ensures { Settles B.Bound.kind points pivots.now cells.old cells.new (is_ok result) }
{
    for pivot in pivots {
        settle_point(cells, points, *pivot)?;
    }
    Ok(())
}
