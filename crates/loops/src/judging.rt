//! The verdict on a whole loop.
ghost use Rattle.std.specs.Prelude.{◌≡◌, ◌+◌, ◌≤◌, Some};
ghost use Rattle.loops.specs.Loops.{Judged, named, loop_verdict, with_bound, most_lines};
ghost use Rattle.loops.specs.Readings.{line_bound};
ghost use Rattle.loops.specs.VerdictTexts.{bad_line_text, verdict_text};
ghost use Rattle.std.specs.Option.{option_map};

use crate::line::{LineFault, MOST_LINES, read_bound};
use crate::text::split_line;
use bounds::Bound;
use std::fmt;

/// The sum of a loop's bounds, and whether any timing meets them.
#[derive(Clone, Copy, PartialEq, Eq, Debug)]
pub struct Verdict<B> {
    pub sum: B,
    pub possible: bool,
}

/// The first line that is at fault, counted from 1.
#[derive(Clone, Copy, PartialEq, Eq, Debug)]
pub struct BadLine {
    pub line: u32,
    pub fault: LineFault,
}

impl<B: Bound> Verdict<B> {
    fn of(sum: B) -> Verdict<B>
        ensures { result ≡ loop_verdict B.Bound.kind sum }
    {
        let possible = B::zero().at_most(sum);
        Verdict { sum, possible }
    }
}

impl BadLine {
    /// The line after `count` good ones.
    fn after(count: u32, fault: LineFault) -> BadLine
        requires { count ≤ most_lines }
        ensures { result ≡ record { line = count + 1; fault = fault } }
    {
        let line = count + 1;
        BadLine { line, fault }
    }
}

/// The sum with the bound of the line after `count` good ones.
fn add_line<B: Bound>(sum: B, line: &[u8], count: u32) -> Result<B, BadLine>
    requires { count ≤ most_lines }
    ensures { result ≡
        named count (with_bound B.Bound.kind sum (line_bound B.Bound.kind line.now)) }
{
    read_bound::<B>(line)
        .map(|bound| sum.sum(bound))
        .map_err(|fault| BadLine::after(count, fault))
}

/// Adds up the bounds of a closed loop, one to a line.
pub fn judge<B: Bound>(text: &[u8]) -> Result<Verdict<B>, BadLine>
    ensures { Judged B.Bound.kind text.now result }
{
    // Pieces of `split` are no lines: an empty text has one, and a last line feed has one behind
    // it.
    let mut rest = text;
    let mut sum = B::zero();
    for count in 0..MOST_LINES {
        if rest.is_empty() {
            break;
        }
        let (line, after) = split_line(rest);
        sum = add_line(sum, line, count)?;
        rest = after;
    }
    if rest.is_empty() {
        Ok(Verdict::of(sum))
    } else {
        Err(BadLine::after(MOST_LINES, LineFault::TooManyLines))
    }
}

impl<B: fmt::Display> fmt::Display for Verdict<B> {
    ghost output = { λ v. option_map (verdict_text v.possible) (B.Display.output v.sum) };

    fn fmt<W: fmt::Write>(&self, f: &mut fmt::Formatter<W>) -> fmt::Result {
        let sum = &self.sum;
        if self.possible {
            write!(f, "sum {sum}: some timing meets the loop")
        } else {
            write!(f, "sum {sum}: no timing can meet the loop")
        }
    }
}

impl fmt::Display for BadLine {
    ghost output = { λ bad. Some (bad_line_text bad) };

    fn fmt<W: fmt::Write>(&self, f: &mut fmt::Formatter<W>) -> fmt::Result {
        let line = self.line;
        let fault = self.fault;
        write!(f, "line {line}: {fault}")
    }
}

impl std::error::Error for BadLine {}
