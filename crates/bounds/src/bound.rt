//! The interface of a kind of bounds. Its ghost member says what the bounds mean and that they keep
//! the laws.
ghost use Rattle.bounds.specs.Kinds.{Kind, made};
ghost use Rattle.std.specs.Prelude.{◌≡◌};

use crate::made::MakeError;

/// How every kind writes that there is no limit.
pub const NO_LIMIT_TEXT: &str = "no limit";

/// A kind of bounds on differences of ages.
pub trait Bound: Copy {
    ghost kind: { Kind Self };

    /// At most 0.
    fn zero() -> Self
        ensures { result ≡ kind.zero };

    /// The bound that allows every difference.
    fn no_limit() -> Self
        ensures { result ≡ kind.no_limit };

    /// The bound of a number, from -262143 to 262143, strict where asked.
    fn make(number: i32, strict: bool) -> Result<Self, MakeError>
        ensures { result ≡ made kind number strict };

    /// The bound on the sum of two differences; no limit where it is too large to hold.
    fn sum(self, other: Self) -> Self
        ensures { result ≡ kind.sum self other };

    /// Whether this bound is the other or a narrower one.
    fn at_most(self, other: Self) -> bool
        ensures { result ≡ kind.at_most self other };

    /// Whether the bound allows the difference, counted in whole units.
    fn allows(self, difference: i64) -> bool
        ensures { result ≡ kind.allows 1 self difference };
}
