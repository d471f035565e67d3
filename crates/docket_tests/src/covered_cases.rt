// Which zones a docket with initial tokens lists: 26, and under marked kind strict bounds, which
// exclude their own number.
use crate::faults::number_under;
use crate::fixture::{Call, Fixture};
use crate::stages::{BOTH_IN_1, two_carriers};
use bounds::{Bound, MarkedBound, PlainBound};
use std::alloc::Global;
use std::process::Abort;
use std::test::Fail;
use test_records::zone_bytes::*;

// The number under plain and under marked kind; 0 where the zone is taken.
type Row = ([Listed; 2], u8, u8);

// The bounds of a token in place 0, where the initial token is 2 old.
const ONE: [Row; 19] = [
    // up to 2, up to 1
    ([(1, 0, 2), (0, 1, NO_LIMIT)], 26, 26),
    ([(1, 0, 1), (0, 1, NO_LIMIT)], 0, 0),
    // 2 and more, 3 and more, 2 alone
    ([(1, 0, NO_LIMIT), (0, 1, MINUS_2)], 26, 26),
    ([(1, 0, NO_LIMIT), (0, 1, MINUS_3)], 0, 0),
    ([(1, 0, 2), (0, 1, MINUS_2)], 26, 26),
    // below 2, below 3
    ([(1, 0, BELOW_2), (0, 1, NO_LIMIT)], 24, 0),
    ([(1, 0, BELOW_3), (0, 1, NO_LIMIT)], 24, 26),
    // above 0, above 1, above 2
    ([(1, 0, NO_LIMIT), (0, 1, STRICT_0)], 24, 26),
    ([(1, 0, NO_LIMIT), (0, 1, ABOVE_1)], 24, 26),
    ([(1, 0, NO_LIMIT), (0, 1, ABOVE_2)], 24, 0),
    // between 1 and 3, between 1 and 2
    ([(1, 0, BELOW_3), (0, 1, ABOVE_1)], 24, 26),
    ([(1, 0, BELOW_2), (0, 1, ABOVE_1)], 24, 0),
    // above 2 and up to 2, below 2 and 2 at least
    ([(1, 0, 2), (0, 1, ABOVE_2)], 24, 25),
    ([(1, 0, BELOW_2), (0, 1, MINUS_2)], 24, 25),
    // 3 at least and up to 2
    ([(1, 0, 2), (0, 1, MINUS_3)], 25, 25),
    // 0 alone, below 0, above 0 and up to 0, up to -1
    ([(1, 0, 0), (0, 1, NO_LIMIT)], 0, 0),
    ([(1, 0, STRICT_0), (0, 1, NO_LIMIT)], 24, 25),
    ([(1, 0, 0), (0, 1, STRICT_0)], 24, 25),
    ([(1, 0, MINUS_1), (0, 1, NO_LIMIT)], 25, 25),
];

// The bounds of two tokens in place 0, where the initial tokens are 2 and 4 old.
const TWO_IN_0: [Row; 9] = [
    ([(1, 0, NO_LIMIT), (2, 0, NO_LIMIT)], 26, 26),
    // the first may have either age, so it has to leave that of 2 to the second
    ([(1, 0, 5), (2, 0, 3)], 26, 26),
    ([(1, 0, 3), (2, 0, 3)], 0, 0),
    ([(1, 0, BELOW_3), (2, 0, 4)], 24, 26),
    ([(1, 0, BELOW_2), (2, 0, 4)], 24, 0),
    // the first is 2 younger at least, 3 younger at least, more than 1 younger, more than 2 younger
    ([(1, 2, MINUS_2), (2, 0, NO_LIMIT)], 26, 26),
    ([(1, 2, MINUS_3), (2, 0, NO_LIMIT)], 0, 0),
    ([(1, 2, ABOVE_1), (2, 0, NO_LIMIT)], 24, 26),
    ([(1, 2, ABOVE_2), (2, 0, NO_LIMIT)], 24, 0),
];

// Posts a zone of each row, of so many tokens in place 0, where the initial tokens in place 0 have
// these ages.
fn check_rows<B: Bound + PartialEq>(
    rt: &impl Abort,
    heap: Global,
    tokens: u8,
    places: &[u8],
    ages: &[u16],
    rows: &[Row],
) -> Result<(), Fail> {
    let bytes = two_carriers(heap)?;
    let mut line: Fixture<'_, B> = Fixture::blank(heap, &bytes)?;
    let target = record(heap, &BOTH_IN_1, &[])?;
    line.gives(rt, Call::Open(places, ages, &target), 0)?;
    for (listed, plain, marked) in rows {
        let zone = record(heap, &[tokens], listed)?;
        let number = number_under::<B>(*plain, *marked);
        line.gives(rt, Call::Post(&zone), number)?;
    }
    // a zone of no tokens, which every marking satisfies
    line.gives(rt, Call::Post(&record(heap, &[0], &[])?), 26)
}

fn check_tables<B: Bound + PartialEq>(rt: &impl Abort, heap: Global) -> Result<(), Fail> {
    check_rows::<B>(rt, heap, 1, &[0], &[2], &ONE)?;
    check_rows::<B>(rt, heap, 2, &[0, 0], &[2, 4], &TWO_IN_0)?;
    check_rows::<B>(rt, heap, 2, &[0, 0], &[4, 2], &TWO_IN_0)?;
    check_rows::<B>(rt, heap, 0, &[], &[], &[])
}

#[test]
fn plain_zones_that_the_marking_satisfies(rt: HostRuntime) -> Result<(), Fail> {
    check_tables::<PlainBound>(&rt, rt.alloc())
}

#[test]
fn marked_zones_that_the_marking_satisfies(rt: HostRuntime) -> Result<(), Fail> {
    check_tables::<MarkedBound>(&rt, rt.alloc())
}
