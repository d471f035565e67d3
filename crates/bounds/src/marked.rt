//! Marked bounds: a whole number, perhaps strict, or no limit, in one word.
ghost use Rattle.bounds.specs.Kinds.{largest_size, number_allows, place};
ghost use Rattle.bounds.specs.Limits.Limit.{number};
ghost use Rattle.bounds.specs.Places.{is_marked_word};
ghost use Rattle.bounds.specs.Texts.{limit_text};
ghost use Rattle.std.specs.Prelude.{◌≡◌, ◌≤◌, Some, IsTrue, unsigned_abs};

use crate::bound::{Bound, NO_LIMIT_TEXT};
use crate::made::{MakeError, within_limits};
use crate::words::{LARGEST_SIZE, NO_LIMIT_WORD};
use std::fmt;

/// A number with its mark.
#[derive(Clone, Copy, PartialEq, Eq, Debug)]
pub struct MarkedNumber {
    pub number: i64,
    pub strict: bool,
}

/// A bound that may be strict.
#[derive(Clone, Copy, PartialEq, Eq, Debug)]
pub struct MarkedBound {
    /// 2c for c strict and 2c + 1 for c, so that bounds compare as words do; or the word for no
    /// limit
    limit: i64,
    ghost held: { IsTrue (is_marked_word limit) },
}

/// The word of the largest number.
const LARGEST_WORD: i64 = 2 * LARGEST_SIZE + 1;

impl MarkedNumber {
    /// At most 0, which is no strict bound.
    pub const ZERO: MarkedNumber = MarkedNumber {
        number: 0,
        strict: false,
    };

    /// Whether the difference, in whole units, is at most the number, or less where the bound is
    /// strict.
    pub fn allows(self, difference: i64) -> bool
        ensures { result ≡ number_allows 1 self.number self.strict difference }
    {
        if self.strict {
            difference < self.number
        } else {
            difference <= self.number
        }
    }
}

impl MarkedNumber {
    /// Its place in the order of bounds.
    fn place(self) -> i64
        requires { unsigned_abs self.number ≤ largest_size }
        ensures { result ≡ place self.number self.strict }
    {
        2 * self.number + i64::from(!self.strict)
    }
}

impl MarkedBound {
    ghost use Rattle.bounds.specs.MarkedKind.{marked_limit};
    ghost use Rattle.bounds.specs.Numbers.{numbered_limit};
    ghost use Rattle.bounds.specs.Places.{capped_place, even, half};
    ghost use Rattle.std.specs.Prelude.{◌≡◌};

    /// The bound of a number; no limit where it is past the largest size.
    pub(crate) fn capped(limit: MarkedNumber) -> MarkedBound
        ensures { result.limit ≡ capped_place limit.number limit.strict }
    {
        if -LARGEST_SIZE <= limit.number && limit.number <= LARGEST_SIZE {
            MarkedBound {
                limit: limit.place(),
            }
        } else {
            MarkedBound {
                limit: NO_LIMIT_WORD,
            }
        }
    }

    /// What stands in the word: a number and its mark.
    fn parts(self) -> MarkedNumber
        ensures { result ≡ record { number = half self.limit; strict = even self.limit } }
    {
        MarkedNumber {
            number: self.limit >> 1,
            strict: self.limit % 2 == 0,
        }
    }

    /// The number with its mark, unless there is no limit.
    fn number(self) -> Option<MarkedNumber>
        ensures { numbered_limit result ≡ marked_limit self.limit }
    {
        (self.limit <= LARGEST_WORD).then_some(self.parts())
    }
}

impl Bound for MarkedBound {
    ghost use Rattle.bounds.specs.MarkedKind.{marked_kind};

    ghost kind = { marked_kind };

    fn zero() -> MarkedBound {
        MarkedBound::capped(MarkedNumber::ZERO)
    }

    fn no_limit() -> MarkedBound {
        MarkedBound {
            limit: NO_LIMIT_WORD,
        }
    }

    fn make(number: i32, strict: bool) -> Result<MarkedBound, MakeError> {
        let number = within_limits(number)?;
        Ok(MarkedBound::capped(MarkedNumber { number, strict }))
    }

    // The sum with the word for no limit is past the largest size too, so no test is needed for it.
    fn sum(self, other: MarkedBound) -> MarkedBound {
        let a = self.parts();
        let b = other.parts();
        MarkedBound::capped(MarkedNumber {
            number: a.number + b.number,
            strict: a.strict | b.strict,
        })
    }

    fn at_most(self, other: MarkedBound) -> bool {
        self.limit <= other.limit
    }

    fn allows(self, difference: i64) -> bool {
        self.number().is_none_or(|c| c.allows(difference))
    }
}

impl fmt::Display for MarkedNumber {
    ghost output = { λ m. Some (limit_text (number m.number m.strict)) };

    fn fmt<W: fmt::Write>(&self, f: &mut fmt::Formatter<W>) -> fmt::Result {
        let number = self.number;
        if self.strict {
            write!(f, "<{number}")
        } else {
            write!(f, "{number}")
        }
    }
}

impl fmt::Display for MarkedBound {
    ghost use Rattle.bounds.specs.MarkedKind.{marked_limit};
    ghost use Rattle.bounds.specs.Texts.{limit_text};
    ghost use Rattle.std.specs.Prelude.{Some};

    ghost output = { λ b. Some (limit_text (marked_limit b.limit)) };

    fn fmt<W: fmt::Write>(&self, f: &mut fmt::Formatter<W>) -> fmt::Result {
        match self.number() {
            Some(limit) => write!(f, "{limit}"),
            None => f.write_str(NO_LIMIT_TEXT),
        }
    }
}
