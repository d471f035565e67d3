// What open and post write: the normal form and the places of their zone on its page, and nothing
// on any other.
use crate::fixture::{Call, Fixture};
use crate::stages::{BOTH_IN_1, ONE_EACH, ONE_IN_1, two_carriers};
use bounds::{Bound, MarkedBound, PlainBound, bound_of};
use std::alloc::Global;
use std::process::Abort;
use std::test::Fail;
use test_records::zone_bytes::*;

// A bound by its row and column, with its mark.
type Entry = (u8, u8, i32, bool);

// What a page holds: the places, and the bounds that are neither no limit nor of a point to itself.
#[derive(Clone, Copy)]
struct Written<'e> {
    page: usize,
    places: [u8; 8],
    entries: &'e [Entry],
}

impl<'e> Written<'e> {
    // By the number of a cell in its page.
    fn cell<B: Bound>(&self, at: usize) -> B {
        let listed = self
            .entries
            .iter()
            .find(|(j, i, _, _)| 9 * usize::from(*j) + usize::from(*i) == at);
        match listed {
            Some((_, _, number, strict)) => bound_of(*number, *strict),
            None if at / 9 == at % 9 => B::zero(),
            None => B::no_limit(),
        }
    }

    fn place(&self, at: usize) -> u8 {
        self.places.get(at).copied().unwrap_or(0)
    }
}

// A call that is taken and writes a page.
fn check_written<B: Bound + PartialEq>(
    rt: &impl Abort,
    line: &mut Fixture<'_, B>,
    call: Call<'_>,
    written: Written<'_>,
) -> Result<(), Fail> {
    let cells = line.cells.as_slice().to_vec(line.heap)?;
    let places = line.places.as_slice().to_vec(line.heap)?;
    line.gives(rt, call, 0)?;
    for (at, (cell, before)) in line.cells.iter().zip(cells.iter()).enumerate() {
        let expected = if at / 81 == written.page {
            written.cell(at % 81)
        } else {
            *before
        };
        assert!(rt; *cell == expected, "cell {at} after {call:?}");
    }
    for (at, (place, before)) in line.places.iter().zip(places.iter()).enumerate() {
        let expected = if at / 8 == written.page {
            written.place(at % 8)
        } else {
            *before
        };
        assert_eq!(rt; *place, expected, "place {at} after {call:?}");
    }
    Ok(())
}

// The normal form of the record `TWO`: 6 of token 1's age, and 0 from the clock to token 2, bound
// their difference by 6.
const TWO_FORM: [Entry; 6] = [
    (0, 1, -1, false),
    (0, 2, 0, false),
    (1, 0, 6, false),
    (1, 2, 6, false),
    (2, 0, 8, false),
    (2, 1, 4, false),
];

// Eight tokens of any age: none is below zero.
const EIGHT_FORM: [Entry; 8] = [
    (0, 1, 0, false),
    (0, 2, 0, false),
    (0, 3, 0, false),
    (0, 4, 0, false),
    (0, 5, 0, false),
    (0, 6, 0, false),
    (0, 7, 0, false),
    (0, 8, 0, false),
];

// Eight tokens in place 1.
const EIGHT_IN_1: [u8; 7] = [8, 0x04, 0x10, 0x41, 0x04, 0x10, 0x41];

// A target of no tokens on page 0, zones of two, of eight and of one on pages 1 to 3, and the last
// page.
fn check_pages<B: Bound + PartialEq>(rt: &impl Abort, heap: Global) -> Result<(), Fail> {
    let bytes = two_carriers(heap)?;
    let mut line: Fixture<'_, B> = Fixture::blank(heap, &bytes)?;
    let none = Written {
        page: 0,
        places: [0; 8],
        entries: &[],
    };
    let target = record(heap, &[0], &[])?;
    let open = Call::Open(&[0], &[9], &target);
    check_written(rt, &mut line, open, none)?;
    let two = Written {
        page: 1,
        places: [1, 0, 0, 0, 0, 0, 0, 0],
        entries: &TWO_FORM,
    };
    let zone = record(heap, &ONE_EACH, &TWO)?;
    check_written(rt, &mut line, Call::Post(&zone), two)?;
    let eight = Written {
        page: 2,
        places: [1; 8],
        entries: &EIGHT_FORM,
    };
    let zone = record(heap, &EIGHT_IN_1, &[])?;
    check_written(rt, &mut line, Call::Post(&zone), eight)?;
    for _ in 2..62 {
        line.gives(rt, Call::Post(&zone), 0)?;
    }
    let last = Written { page: 63, ..eight };
    check_written(rt, &mut line, Call::Post(&zone), last)
}

#[test]
fn a_page_holds_the_plain_normal_form(rt: HostRuntime) -> Result<(), Fail> {
    check_pages::<PlainBound>(&rt, rt.alloc())
}

#[test]
fn a_page_holds_the_marked_normal_form(rt: HostRuntime) -> Result<(), Fail> {
    check_pages::<MarkedBound>(&rt, rt.alloc())
}

// Token 1 is 1 old at least and below 3, token 2 at most 4 older; so token 2 is below 7, and token
// 1 less than 3 older.
const STRICT_TWO: [Listed; 3] = [(0, 1, MINUS_1), (1, 0, BELOW_3), (2, 1, 4)];

const STRICT_FORM: [Entry; 6] = [
    (0, 1, -1, false),
    (0, 2, 0, false),
    (1, 0, 3, true),
    (1, 2, 3, true),
    (2, 0, 7, true),
    (2, 1, 4, false),
];

// A target whose token is above 1, and a zone of two tokens.
#[test]
fn a_page_keeps_marks(rt: HostRuntime) -> Result<(), Fail> {
    let heap = rt.alloc();
    let bytes = two_carriers(heap)?;
    let mut line: Fixture<'_, MarkedBound> = Fixture::blank(heap, &bytes)?;
    let above_1 = Written {
        page: 0,
        places: [1, 0, 0, 0, 0, 0, 0, 0],
        entries: &[(0, 1, -1, true)],
    };
    let target = record(heap, &ONE_IN_1, &[(0, 1, ABOVE_1)])?;
    let open = Call::Open(&[], &[], &target);
    check_written(&rt, &mut line, open, above_1)?;
    let two = Written {
        page: 1,
        places: [1, 1, 0, 0, 0, 0, 0, 0],
        entries: &STRICT_FORM,
    };
    let zone = record(heap, &BOTH_IN_1, &STRICT_TWO)?;
    check_written(&rt, &mut line, Call::Post(&zone), two)
}

// No token and eight, of the largest age and in the last place: with `TWO` as the target each is
// taken.
fn check_taken<B: Bound + PartialEq>(
    rt: &impl Abort,
    heap: Global,
    places: &[u8],
    ages: &[u16],
) -> Result<(), Fail> {
    let bytes = two_carriers(heap)?;
    let mut line: Fixture<'_, B> = Fixture::blank(heap, &bytes)?;
    let two = Written {
        page: 0,
        places: [1, 0, 0, 0, 0, 0, 0, 0],
        entries: &TWO_FORM,
    };
    let target = record(heap, &ONE_EACH, &TWO)?;
    let open = Call::Open(places, ages, &target);
    check_written(rt, &mut line, open, two)
}

fn check_edges<B: Bound + PartialEq>(rt: &impl Abort, heap: Global) -> Result<(), Fail> {
    check_taken::<B>(rt, heap, &[], &[])?;
    check_taken::<B>(rt, heap, &[1; 8], &[32767; 8])?;
    // the target is satisfied from the start: only listed zones are asked for that
    check_taken::<B>(rt, heap, &[1, 0], &[1, 0])
}

#[test]
fn initial_markings_at_their_limits(rt: HostRuntime) -> Result<(), Fail> {
    check_edges::<PlainBound>(&rt, rt.alloc())?;
    check_edges::<MarkedBound>(&rt, rt.alloc())
}
