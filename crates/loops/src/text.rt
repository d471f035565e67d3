//! Lines, and the numbers in them.
ghost use Rattle.bounds.specs.Kinds.{largest_number};
ghost use Rattle.loops.specs.Lines.{first_line, after_line, natural, integer, clipped};
ghost use Rattle.loops.specs.Lines.{signed_clipped};
ghost use Rattle.std.specs.Prelude.{◌≡◌, ◌+◌, ◌≤◌, IfSome};
ghost use Rattle.std.specs.Option.{option_map};

use bounds::LARGEST_NUMBER;

/// One past the largest number of a bound; every larger number is read as this one.
const PAST: u32 = LARGEST_NUMBER as u32 + 1;

/// The first line without its line feed, and what follows it.
pub fn split_line(text: &[u8]) -> (&[u8], &[u8])
    ensures line { result.0.now ≡ first_line text.now }
    ensures rest { result.1.now ≡ after_line text.now }
{
    match text.iter().position(|b| *b == b'\n') {
        Some(i) => (&text[..i], &text[i + 1..]),
        None => (text, &[]),
    }
}

/// The number that decimal digits write, at most `PAST`.
fn natural(text: &[u8]) -> Option<u32>
    ensures value { result ≡ option_map clipped (natural text.now) }
    ensures bound { IfSome result (λ n. n ≤ largest_number + 1) }
{
    if text.is_empty() {
        return None;
    }
    let mut number = 0;
    // `try_fold` asks that its closure may be called at every number, and ten times a number past
    // `PAST` may not fit.
    for b in text {
        if !b.is_ascii_digit() {
            return None;
        }
        number = (10 * number + u32::from(*b - b'0')).min(PAST);
    }
    Some(number)
}

/// The number that digits write, perhaps after a minus sign, from -`PAST` to `PAST`.
pub fn integer(text: &[u8]) -> Option<i32>
    ensures { result ≡ option_map signed_clipped (integer text.now) }
{
    match text.strip_prefix(b"-") {
        Some(digits) => natural(digits).map(|number| -(number as i32)),
        None => natural(text).map(|number| number as i32),
    }
}
