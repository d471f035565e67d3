//! Plain bounds: a whole number, or no limit, in one word.
ghost use Rattle.bounds.specs.Words.{capped_word, is_plain_word};
ghost use Rattle.bounds.specs.Texts.{limit_text};
ghost use Rattle.std.specs.Prelude.{◌≡◌, Some, IsTrue};

use crate::bound::{Bound, NO_LIMIT_TEXT};
use crate::made::{MakeError, within_limits};
use crate::marked::{MarkedBound, MarkedNumber};
use crate::words::{LARGEST_SIZE, NO_LIMIT_WORD};
use std::fmt;

/// A bound that is never strict.
#[derive(Clone, Copy, PartialEq, Eq, Debug)]
pub struct PlainBound {
    /// the number, or the word that says no limit
    limit: i64,
    ghost held: { IsTrue (is_plain_word limit) },
}

/// The bound of a number; no limit where it is past the largest size.
fn capped(number: i64) -> PlainBound
    ensures { result.limit ≡ capped_word number }
{
    if -LARGEST_SIZE <= number && number <= LARGEST_SIZE {
        PlainBound { limit: number }
    } else {
        PlainBound {
            limit: NO_LIMIT_WORD,
        }
    }
}

impl Bound for PlainBound {
    ghost use Rattle.bounds.specs.PlainKind.{plain_kind};

    ghost kind = { plain_kind };

    fn zero() -> PlainBound {
        PlainBound { limit: 0 }
    }

    fn no_limit() -> PlainBound {
        PlainBound {
            limit: NO_LIMIT_WORD,
        }
    }

    fn make(number: i32, strict: bool) -> Result<PlainBound, MakeError> {
        let number = within_limits(number)?;
        if strict {
            return Err(MakeError::MarkNotTaken);
        }
        Ok(capped(number))
    }

    fn sum(self, other: PlainBound) -> PlainBound {
        capped(self.limit + other.limit)
    }

    fn at_most(self, other: PlainBound) -> bool {
        self.limit <= other.limit
    }

    fn allows(self, difference: i64) -> bool {
        LARGEST_SIZE < self.limit || difference <= self.limit
    }
}

/// The marked bound that allows the same.
impl From<PlainBound> for MarkedBound {
    ghost use Rattle.bounds.specs.MarkedKind.{as_marked};
    ghost use Rattle.std.specs.Prelude.{◌≡◌};

    ghost from_gives = { λ b r. r ≡ as_marked b };

    fn from(bound: PlainBound) -> MarkedBound {
        if LARGEST_SIZE < bound.limit {
            return MarkedBound::no_limit();
        }
        MarkedBound::capped(MarkedNumber {
            number: bound.limit,
            strict: false,
        })
    }
}

impl fmt::Display for PlainBound {
    ghost use Rattle.bounds.specs.PlainKind.{plain_limit};
    ghost use Rattle.bounds.specs.Texts.{limit_text};
    ghost use Rattle.std.specs.Prelude.{Some};

    ghost output = { λ b. Some (limit_text (plain_limit b.limit)) };

    fn fmt<W: fmt::Write>(&self, f: &mut fmt::Formatter<W>) -> fmt::Result {
        let limit = self.limit;
        if LARGEST_SIZE < limit {
            return f.write_str(NO_LIMIT_TEXT);
        }
        write!(f, "{limit}")
    }
}
