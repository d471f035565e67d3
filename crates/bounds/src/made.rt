//! What bounds are made of, and why one could not be made.
ghost use Rattle.bounds.specs.Kinds.{bound_of, largest_number};
ghost use Rattle.bounds.specs.MadeTexts.{make_error_text};
ghost use Rattle.bounds.specs.declared.made.MakeError.TheVariants.{OutsideLimits};
ghost use Rattle.std.specs.Prelude.{◌≡◌, Some, Ok, Err, if◌then◌else◌, nat_le, unsigned_abs};

use crate::bound::Bound;
use std::fmt;

/// Numbers from -262143 to 262143 make bounds.
pub const LARGEST_NUMBER: i32 = 262_143;

/// Why no bound of a number could be made.
#[derive(Clone, Copy, PartialEq, Eq, Debug)]
pub enum MakeError {
    /// the number lies outside -262143 to 262143
    OutsideLimits,
    /// the kind has no strict bounds
    MarkNotTaken,
}

impl fmt::Display for MakeError {
    ghost output = { λ e. Some (make_error_text e) };

    fn fmt<W: fmt::Write>(&self, f: &mut fmt::Formatter<W>) -> fmt::Result {
        f.write_str(match self {
            MakeError::OutsideLimits => "the number is outside -262143 to 262143",
            MakeError::MarkNotTaken => "this kind has no strict bounds",
        })
    }
}

/// The number, if bounds are made of it.
pub fn within_limits(number: i32) -> Result<i64, MakeError>
    ensures { result ≡ (if nat_le (unsigned_abs number) largest_number
        then Ok number else Err OutsideLimits) }
{
    if (-LARGEST_NUMBER..=LARGEST_NUMBER).contains(&number) {
        Ok(i64::from(number))
    } else {
        Err(MakeError::OutsideLimits)
    }
}

/// The bound of a number, without its mark where the kind takes none; no limit where no bound is
/// made of the number.
pub fn bound_of<B: Bound>(number: i32, strict: bool) -> B
    ensures { result ≡ bound_of B.Bound.kind number strict }
{
    let unmarked = B::make(number, false).unwrap_or(B::no_limit());
    B::make(number, strict).unwrap_or(unmarked)
}
