// What records are refused for, normal forms, and the delay predecessor.
use crate::drafts::{check_bounds, draft};
use bounds::{Bound, MarkedBound, PlainBound};
use net_records::fault::Refusal;
use std::alloc::Global;
use std::process::Abort;
use std::test::Fail;
use test_records::zone_bytes::*;
use zone_drafts::delay::delay_predecessor;
use zone_drafts::draft::DRAFT_CELLS;
use zone_reading::read_zone;

// A token in places 2 and 3, of which a net of three places has the first alone.
const IN_2: [u8; 2] = [1, 0x08];

const IN_3: [u8; 2] = [1, 0x0c];

// The number that a net of three places refuses the bytes with.
fn refused<B: Bound>(bytes: &[u8], cells: &mut [B]) -> Option<u8> {
    let refusal = read_zone(bytes, 3, cells).err()?;
    Some(refusal.number())
}

// That number under plain and under marked kind.
#[derive(Clone, Copy)]
struct Numbers {
    plain: Option<u8>,
    marked: Option<u8>,
}

const TAKEN: Numbers = Numbers {
    plain: None,
    marked: None,
};

const PLAIN_24: Numbers = Numbers {
    plain: Some(24),
    marked: None,
};

fn check_bytes(rt: &impl Abort, bytes: &[u8], numbers: Numbers) {
    let Numbers { plain, marked } = numbers;
    assert_eq!(rt;
        refused(bytes, &mut [PlainBound::no_limit(); DRAFT_CELLS]),
        plain
    );
    assert_eq!(rt;
        refused(bytes, &mut [MarkedBound::no_limit(); DRAFT_CELLS]),
        marked
    );
}

fn check_case(
    rt: &impl Abort,
    heap: Global,
    header: &[u8],
    listed: &[Listed],
    numbers: Numbers,
) -> Result<(), Fail> {
    check_bytes(rt, &record(heap, header, listed)?, numbers);
    Ok(())
}

fn both(number: u8) -> Numbers {
    Numbers {
        plain: Some(number),
        marked: Some(number),
    }
}

fn check_both(
    rt: &impl Abort,
    heap: Global,
    header: &[u8],
    listed: &[Listed],
    number: u8,
) -> Result<(), Fail> {
    check_case(rt, heap, header, listed, both(number))
}

// The same for one token of an age up to a bound, and a bound of the clock's row.
fn check_ages(
    rt: &impl Abort,
    heap: Global,
    upper: u32,
    lower: u32,
    numbers: Numbers,
) -> Result<(), Fail> {
    check_case(rt, heap, &IN_2, &[(1, 0, upper), (0, 1, lower)], numbers)
}

#[test]
fn unused_fields_of_a_record_are_refused(rt: HostRuntime) -> Result<(), Fail> {
    let heap = rt.alloc();
    check_case(&rt, heap, &[0], &[], TAKEN)?;
    check_case(&rt, heap, &IN_2, &[], TAKEN)?;
    // 20, with a spare bit too
    let mut bytes = record(heap, &[0x10], &[])?;
    bytes.push(0)?;
    check_bytes(&rt, &bytes, both(20));
    bytes.truncate(191);
    check_bytes(&rt, &bytes, both(20));
    check_bytes(&rt, &[], both(20));
    // 21: spare bits, places of tokens 2 and 8, absent bounds, a mark on no limit
    check_both(&rt, heap, &[0x10], &[], 21)?;
    check_both(&rt, heap, &[0x81], &[], 21)?;
    check_both(&rt, heap, &[0, 0, 0, 0, 0, 0, 0, 0x80], &[], 21)?;
    check_both(&rt, heap, &[0, 0, 0, 0, 0, 0, 0, 0, 0, 0, 0, 1], &[], 21)?;
    check_both(&rt, heap, &[1, 0, 0x10], &[], 21)?;
    check_both(&rt, heap, &[1, 0, 0, 0, 0, 0, 1], &[], 21)?;
    check_both(&rt, heap, &IN_2, &[(1, 2, 0)], 21)?;
    check_both(&rt, heap, &IN_2, &[(8, 7, 0x40001)], 21)?;
    check_both(&rt, heap, &IN_2, &[(2, 1, MARKED_NO_LIMIT)], 21)?;
    check_both(&rt, heap, &IN_2, &[(1, 0, MARKED_NO_LIMIT)], 21)
}

#[test]
fn records_are_refused_by_the_lowest_number(rt: HostRuntime) -> Result<(), Fail> {
    let heap = rt.alloc();
    // 21 before each later number
    check_both(&rt, heap, &[0x19], &[], 21)?;
    check_both(&rt, heap, &[9], &[(1, 0, MARKED_NO_LIMIT)], 21)?;
    check_both(&rt, heap, &IN_3, &[(8, 7, 0)], 21)?;
    check_both(&rt, heap, &IN_2, &[(1, 0, BELOW_3), (0, 2, 0)], 21)?;
    check_both(
        &rt,
        heap,
        &IN_2,
        &[(1, 0, 2), (0, 1, MINUS_3), (0, 2, 0)],
        21,
    )?;
    // 22, where no place and no bound is unused
    check_both(&rt, heap, &[9], &[], 22)?;
    check_both(&rt, heap, &[15], &[(8, 7, 0)], 22)?;
    check_both(&rt, heap, &[9, 0x0c, 0, 0, 0, 0, 1], &[], 22)?;
    check_both(&rt, heap, &[9], &[(1, 0, BELOW_2), (0, 1, MINUS_3)], 22)?;
    // 23
    check_both(&rt, heap, &IN_3, &[], 23)?;
    check_both(&rt, heap, &IN_3, &[(1, 0, BELOW_2), (0, 1, MINUS_3)], 23)?;
    // 24 and 25
    check_ages(&rt, heap, BELOW_3, NO_LIMIT, PLAIN_24)?;
    check_ages(
        &rt,
        heap,
        BELOW_2,
        MINUS_3,
        Numbers {
            plain: Some(24),
            marked: Some(25),
        },
    )?;
    check_ages(&rt, heap, 2, MINUS_3, both(25))
}

#[test]
fn strict_three_meets_no_three(rt: HostRuntime) -> Result<(), Fail> {
    let heap = rt.alloc();
    check_ages(&rt, heap, 2, MINUS_3, both(25))?;
    check_ages(&rt, heap, 3, MINUS_3, TAKEN)?;
    check_ages(&rt, heap, BELOW_3, MINUS_2, PLAIN_24)?;
    check_ages(
        &rt,
        heap,
        BELOW_3,
        MINUS_3,
        Numbers {
            plain: Some(24),
            marked: Some(25),
        },
    )?;
    // no age is below zero, whatever the clock's row says
    check_ages(&rt, heap, MINUS_1, NO_LIMIT, both(25))?;
    check_ages(&rt, heap, MINUS_1, 5, both(25))
}

#[test]
fn a_normal_form_is_the_least_walk(rt: HostRuntime) -> Result<(), Fail> {
    let heap = rt.alloc();
    let cells = draft(heap, &[2], &TWO)?;
    check_bounds(&rt, &cells, &[(0, 0, 0), (0, 1, -1), (0, 2, 0)]);
    check_bounds(&rt, &cells, &[(1, 0, 6), (1, 1, 0), (1, 2, 6)]);
    check_bounds(&rt, &cells, &[(2, 0, 8), (2, 1, 4), (2, 2, 0)]);
    // above zero in the clock's row counts as zero
    let cells = draft(heap, &[1], &[(0, 1, 5), (1, 0, 7)])?;
    check_bounds(&rt, &cells, &[(0, 0, 0), (0, 1, 0), (1, 0, 7), (1, 1, 0)]);
    Ok(())
}

#[test]
fn a_delay_releases_the_clock_row(rt: HostRuntime) -> Result<(), Fail> {
    let heap = rt.alloc();
    let mut cells = draft(heap, &[2], &TWO)?;
    delay_predecessor(&mut cells, &[0, 0]);
    check_bounds(&rt, &cells, &[(0, 0, 0), (0, 1, 0), (0, 2, 0)]);
    check_bounds(&rt, &cells, &[(1, 0, 6), (1, 1, 0), (1, 2, 6)]);
    check_bounds(&rt, &cells, &[(2, 0, 8), (2, 1, 4), (2, 2, 0)]);
    // a token that is 2 older than another was so before too
    let mut cells = draft(heap, &[2], &[(0, 1, MINUS_5), (2, 1, MINUS_2)])?;
    check_bounds(&rt, &cells, &[(0, 1, -5), (0, 2, 0), (2, 1, -2)]);
    delay_predecessor(&mut cells, &[0, 0]);
    check_bounds(&rt, &cells, &[(0, 1, -2), (0, 2, 0), (2, 1, -2)]);
    Ok(())
}
