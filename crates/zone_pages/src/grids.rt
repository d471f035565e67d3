// Cells wiped.
ghost use Rattle.std.specs.Prelude.{◌≡◌, length, replicate};

use bounds::Bound;

/// Leaves no limit in every cell.
pub fn wipe<B: Bound>(cells: &mut [B])
    ensures { cells.new ≡ replicate (length cells.old) B.Bound.kind.no_limit }
{
    // Not `fill`, which asks that the clone of a bound never fails.
    cells.fill_with(|| B::no_limit());
}
