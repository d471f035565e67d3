//! Edges of the kinds of bounds: plain, marked, and one's own.
use bounds::{Bound, MakeError};
#[cfg(test)]
use std::process::Abort;
#[cfg(test)]
use std::test::Fail;

/// A number, doubled so many times.
fn doubled<B: Bound>(number: i32, times: u8) -> Result<B, MakeError> {
    let first = B::make(number, false)?;
    Ok((0..times).fold(first, |b: B, _| b.sum(b)))
}

fn same<B: Bound>(a: B, b: B) -> bool {
    a.at_most(b) && b.at_most(a)
}

fn below<B: Bound>(a: B, b: B) -> bool {
    a.at_most(b) && !b.at_most(a)
}

/// Whether a bound is made, or why not.
fn takes<B: Bound>(number: i32, strict: bool) -> Result<(), MakeError> {
    B::make(number, strict).map(|_| ())
}

/// What every kind does at the edges.
#[cfg(test)]
fn check_edges<B: Bound>(rt: &impl Abort) -> Result<(), Fail> {
    assert!(rt; takes::<B>(262_143, false).is_ok());
    assert!(rt; takes::<B>(-262_143, false).is_ok());
    assert_eq!(rt; takes::<B>(262_144, false), Err(MakeError::OutsideLimits));
    assert_eq!(rt; takes::<B>(-262_144, false), Err(MakeError::OutsideLimits));
    assert_eq!(rt; takes::<B>(-262_144, true), Err(MakeError::OutsideLimits));
    let one = B::make(1, false)?;
    let most = doubled::<B>(1, 40)?;
    assert!(rt; below(most, B::no_limit()), "2^40 is kept");
    assert!(rt; same(most.sum(one), B::no_limit()), "2^40 + 1 is not");
    let least = doubled::<B>(-1, 40)?;
    assert!(rt; below(least, B::zero()), "-2^40 is kept");
    assert!(rt;
        same(least.sum(B::make(-1, false)?), B::no_limit()),
        "-2^40 - 1 is not"
    );
    Ok(())
}

/// No limit, and 3 with -3, in every kind.
#[cfg(test)]
fn check_sums<B: Bound>(rt: &impl Abort) -> Result<(), Fail> {
    let three = B::make(3, false)?;
    let sum = three.sum(B::make(-3, false)?);
    assert!(rt; same(sum, B::zero()));
    assert!(rt; sum.allows(0) && !sum.allows(1));
    assert!(rt; same(three.sum(B::no_limit()), B::no_limit()));
    assert!(rt; same(B::no_limit().sum(three), B::no_limit()));
    assert!(rt; below(three, B::no_limit()));
    assert!(rt; B::no_limit().allows(i64::MAX));
    Ok(())
}

/// Strict bounds, where a kind has them: 3 strict stands just below 3, and 3 strict with -3 below
/// zero.
#[cfg(test)]
fn check_marks<B: Bound>(rt: &impl Abort) -> Result<(), Fail> {
    assert!(rt; takes::<B>(262_143, true).is_ok());
    let strict = B::make(3, true)?;
    assert!(rt; below(strict, B::make(3, false)?));
    assert!(rt; below(B::make(2, false)?, strict));
    assert!(rt; strict.allows(2) && !strict.allows(3));
    let sum = strict.sum(B::make(-3, false)?);
    assert!(rt; below(sum, B::zero()));
    assert!(rt; !sum.allows(0) && sum.allows(-1));
    Ok(())
}

#[cfg(test)]
mod tests {
    use super::*;
    use bounds::{MarkedBound, PlainBound, Range};
    use bounds_own::OwnBound;

    #[test]
    fn plain_edges(rt: HostRuntime) -> Result<(), Fail> {
        check_edges::<PlainBound>(&rt)?;
        check_sums::<PlainBound>(&rt)?;
        assert_eq!(rt; takes::<PlainBound>(3, true), Err(MakeError::MarkNotTaken));
        Ok(())
    }

    #[test]
    fn marked_edges(rt: HostRuntime) -> Result<(), Fail> {
        check_edges::<MarkedBound>(&rt)?;
        check_sums::<MarkedBound>(&rt)?;
        check_marks::<MarkedBound>(&rt)
    }

    #[test]
    fn own_edges(rt: HostRuntime) -> Result<(), Fail> {
        check_edges::<OwnBound>(&rt)?;
        check_sums::<OwnBound>(&rt)?;
        check_marks::<OwnBound>(&rt)
    }

    #[test]
    fn own_bounds_past_the_limits(rt: HostRuntime) -> Result<(), Fail> {
        assert_eq!(rt; OwnBound::make(3, true), Ok(OwnBound::Below(3)));
        let largest = OwnBound::AtMost(i64::MAX);
        assert_eq!(rt; largest.sum(OwnBound::Below(1)), OwnBound::NoLimit);
        assert!(rt; below(largest, OwnBound::NoLimit));
        Ok(())
    }

    #[test]
    fn a_range_holds_its_ends(rt: HostRuntime) -> Result<(), Fail> {
        let upper = PlainBound::make(6, false)?;
        let lower = PlainBound::make(-1, false)?;
        let range = Range { upper, lower };
        assert!(rt; !range.holds(0) && range.holds(1) && range.holds(6) && !range.holds(7));
        Ok(())
    }
}
