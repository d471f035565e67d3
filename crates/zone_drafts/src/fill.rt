// A draft written point by point.
ghost use Rattle.zone_cells.specs.Cells.{written};
ghost use Rattle.std.specs.Prelude.{◌≡◌, ℕ, ◌<◌};

use crate::draft::put;
use bounds::Bound;

/// Writes so many points of a zone into a draft: the bound of point j against point i is what the
/// closure answers of the two.
pub fn fill<B: Bound, F: Fn(u8, u8) -> B>(draft: &mut [B], points: u8, bound: F)
    requires { F.IsAlwaysCallable bound }
    ensures { (bounds : ℕ → ℕ → B) → ((j i : ℕ) (b : B) → j < points → i < points →
        F.post bound j i b → b ≡ bounds j i) → draft.new ≡ written bounds points draft.old }
{
    for j in 0..points {
        for i in 0..points {
            put(draft, j, i, bound(j, i));
        }
    }
}
