//! A kind of bounds of one's own, over the interface of `bounds` alone: each bound says in its name
//! what it allows.
#![tactic(auto)]

ghost use Rattle.bounds.specs.Kinds.{largest_size};
ghost use Rattle.bounds.specs.Texts.{limit_text};
ghost use Rattle.bounds_own.specs.OwnKind.{own_kind, own_limit};
ghost use Rattle.std.specs.Prelude.{◌≡◌, ◌+ℤ◌, if◌then◌else◌, Some, None, nat_le, unsigned_abs};

use OwnBound::{AtMost, Below, NoLimit};
use bounds::{Bound, LARGEST_SIZE, MakeError, NO_LIMIT_TEXT, within_limits};
use std::fmt;

/// A bound on a difference of ages.
#[derive(Clone, Copy, PartialEq, Eq, Debug)]
pub enum OwnBound {
    /// at most the number
    AtMost(i64),
    /// less than the number
    Below(i64),
    /// any difference
    NoLimit,
}

/// Two numbers added, unless the sum is too large for a bound.
fn added(a: i64, b: i64) -> Option<i64>
    ensures { result ≡ (if nat_le (unsigned_abs (a +ℤ b)) largest_size
        then Some (a +ℤ b) else None) }
{
    let sum = a.checked_add(b)?;
    (-LARGEST_SIZE..=LARGEST_SIZE).contains(&sum).then_some(sum)
}

impl Bound for OwnBound {
    ghost kind = { own_kind };

    fn zero() -> OwnBound {
        AtMost(0)
    }

    fn no_limit() -> OwnBound {
        NoLimit
    }

    fn make(number: i32, strict: bool) -> Result<OwnBound, MakeError> {
        let number = within_limits(number)?;
        Ok(if strict {
            Below(number)
        } else {
            AtMost(number)
        })
    }

    fn sum(self, other: OwnBound) -> OwnBound {
        match (self, other) {
            (AtMost(a), AtMost(b)) => added(a, b).map_or(NoLimit, AtMost),
            (AtMost(a) | Below(a), AtMost(b) | Below(b)) => added(a, b).map_or(NoLimit, Below),
            _ => NoLimit,
        }
    }

    fn at_most(self, other: OwnBound) -> bool {
        match (self, other) {
            (_, NoLimit) => true,
            (NoLimit, _) => false,
            // c stands just above c strict
            (AtMost(a), Below(b)) => a < b,
            (AtMost(a) | Below(a), AtMost(b) | Below(b)) => a <= b,
        }
    }

    fn allows(self, difference: i64) -> bool {
        match self {
            AtMost(number) => difference <= number,
            Below(number) => difference < number,
            NoLimit => true,
        }
    }
}

impl fmt::Display for OwnBound {
    ghost output = { λ b. Some (limit_text (own_limit b)) };

    fn fmt<W: fmt::Write>(&self, f: &mut fmt::Formatter<W>) -> fmt::Result {
        match self {
            AtMost(number) => write!(f, "{number}"),
            Below(number) => write!(f, "<{number}"),
            NoLimit => f.write_str(NO_LIMIT_TEXT),
        }
    }
}
