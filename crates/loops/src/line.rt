//! One line of a loop: the bound that it says, or what is wrong with it.
ghost use Rattle.loops.specs.FaultTexts.{line_fault_text};
ghost use Rattle.std.specs.Prelude.{◌≡◌, Some};
ghost use Rattle.loops.specs.Readings.{line_bound, number_bound};
ghost use Rattle.loops.specs.declared.line.LineFault.TheVariants.{Unmade};

use crate::text::integer;
use bounds::{Bound, MakeError, NO_LIMIT_TEXT};
use std::fmt;

/// So few that the sum of their bounds stays within 2^40, where sums are exact.
pub(crate) const MOST_LINES: u32 = 1 << 22;

/// What is wrong with a line, or with their number.
#[derive(Clone, Copy, PartialEq, Eq, Debug)]
pub enum LineFault {
    NotABound,
    Unmade(MakeError),
    TooManyLines,
}

impl From<MakeError> for LineFault {
    ghost from_gives = { λ e r. r ≡ Unmade e };

    fn from(e: MakeError) -> LineFault {
        LineFault::Unmade(e)
    }
}

fn number_bound<B: Bound>(text: &[u8], strict: bool) -> Result<B, LineFault>
    ensures { result ≡ number_bound B.Bound.kind text.now strict }
{
    let number = integer(text).ok_or(LineFault::NotABound)?;
    Ok(B::make(number, strict)?)
}

/// The bound that a line says.
pub fn read_bound<B: Bound>(line: &[u8]) -> Result<B, LineFault>
    ensures { result ≡ line_bound B.Bound.kind line.now }
{
    if line == NO_LIMIT_TEXT.as_bytes() {
        return Ok(B::no_limit());
    }
    match line.strip_prefix(b"<") {
        Some(text) => number_bound(text, true),
        None => number_bound(line, false),
    }
}

impl fmt::Display for LineFault {
    ghost output = { λ e. Some (line_fault_text e) };

    fn fmt<W: fmt::Write>(&self, f: &mut fmt::Formatter<W>) -> fmt::Result {
        match self {
            LineFault::NotABound => {
                f.write_str("not a bound (write a number as 3, a strict one as <3, or no limit)")
            }
            LineFault::Unmade(e) => write!(f, "{e}"),
            LineFault::TooManyLines => write!(f, "a loop has at most {MOST_LINES} lines"),
        }
    }
}
