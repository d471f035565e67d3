// What lines come to.
ghost use Rattle.file_rules.specs.Truth.{LinePromise};
ghost use Rattle.std.specs.Prelude.{ℕ, List};

use bounds::{MarkedBound, PlainBound};
use docket_rules::calls_keep_laws;

/// Does nothing: its contract is what is promised of the line of every file.
pub fn lines_keep_promises()
    ensures { (bytes : List ℕ) → LinePromise bytes }
{
    calls_keep_laws::<PlainBound>();
    calls_keep_laws::<MarkedBound>();
}
