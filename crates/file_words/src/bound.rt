// Bounds that can be written for people, in generic code.
ghost use Rattle.std.specs.Prelude.{◌≡◌, ℕ, List, ◌++◌, string_bytes, OnOk};
ghost use Rattle.bounds.specs.MarkedKind.{marked_limit};
ghost use Rattle.bounds.specs.PlainKind.{plain_limit};
ghost use Rattle.bounds.specs.Texts.{limit_text};

use bounds::{Bound, MarkedBound, PlainBound};
use std::alloc::AllocError;

/// Each kind writes itself: one body over a bound `Display` would ask more of whoever brings a
/// kind.
pub trait BoundWords: Bound {
    ghost words: { Self → List ℕ };

    /// Writes the bound at the end of the text.
    fn write_words(self, text: &mut String) -> Result<(), AllocError>
        ensures { OnOk result (string_bytes text.new ≡ string_bytes text.old ++ words self) };
}

impl BoundWords for PlainBound {
    ghost words = { λ b. limit_text (plain_limit b.limit) };

    fn write_words(self, text: &mut String) -> Result<(), AllocError> {
        write!(text, "{self}")
    }
}

impl BoundWords for MarkedBound {
    ghost words = { λ b. limit_text (marked_limit b.limit) };

    fn write_words(self, text: &mut String) -> Result<(), AllocError> {
        write!(text, "{self}")
    }
}
