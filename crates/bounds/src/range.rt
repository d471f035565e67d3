//! Ranges of ages: two bounds of one kind.
ghost use Rattle.bounds.specs.Ranges.{holds, from_zero};
ghost use Rattle.std.specs.Prelude.{◌≡◌, pos};

use crate::bound::Bound;

/// The lower bound limits the negated age: -1 holds the ages from 1.
#[derive(Clone, Copy, PartialEq, Eq, Debug)]
pub struct Range<B> {
    pub upper: B,
    pub lower: B,
}

impl<B: Bound> Range<B> {
    /// The ages from 0 without limit.
    pub fn from_zero() -> Range<B>
        ensures { result ≡ from_zero B.Bound.kind }
    {
        Range {
            upper: B::no_limit(),
            lower: B::zero(),
        }
    }

    /// Whether the age, in whole units, lies in the range.
    pub fn holds(self, age: u32) -> bool
        ensures { result ≡ holds B.Bound.kind 1 self (pos age) }
    {
        let age = i64::from(age);
        self.upper.allows(age) && self.lower.allows(-age)
    }
}
