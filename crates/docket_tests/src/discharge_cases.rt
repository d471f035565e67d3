// What discharging is refused for.
use crate::due_cases::item;
use crate::fixture::{Call, Fixture};
use crate::stages::*;
use bounds::{Bound, MarkedBound, PlainBound};
use std::alloc::Global;
use std::process::Abort;
use std::test::Fail;
use test_records::zone_bytes::*;

// How many of the bytes are given where the target is due, and the number. The target's tokens
// stand in place 1, of any age. Listed are zones of tokens in places 1 and 1, 1 and 0, 0 and 0, and
// once more 1 and 1 and 1 and 0, their first token at most 5 old.
const AT_TARGET: [(u8, [u8; 7], u8); 42] = [
    // 20: five bytes, seven, none
    (5, [0x02, 0x24, 0, 0, 0, 0, 0], 20),
    (7, [0x02, 0x24, 0, 0, 0, 0, 0], 20),
    (0, [0x02, 0x24, 0, 0, 0, 0, 0], 20),
    // with 21 by a spare bit or a third partner, 27, 29, 30, 31, 32
    (5, [0x02, 0x24, 0, 0, 1, 0, 0], 20),
    (7, [0x02, 0x24, 0, 0, 0, 1, 0], 20),
    (7, [0x02, 0x24, 0x20, 0, 0, 0, 0], 20),
    (5, [0x80, 0, 0, 0, 0, 0, 0], 20),
    (7, [0x00, 0x24, 0, 0, 0, 0, 0], 20),
    (5, [0x02, 0x22, 0, 0, 0, 0, 0], 20),
    (7, [0x04, 0x24, 0, 0, 0, 0, 0], 20),
    (7, [0x08, 0x24, 0, 0, 0, 0, 0], 20),
    // 21: the first and the last spare bit, a third and an eighth partner, void with a zone, with
    // its first and its last partner
    (6, [0x02, 0x24, 0, 0, 1, 0, 0], 21),
    (6, [0x02, 0x24, 0, 0, 0, 1, 0], 21),
    (6, [0x02, 0x24, 0x20, 0, 0, 0, 0], 21),
    (6, [0x02, 0x24, 0, 0, 2, 0, 0], 21),
    (6, [0x82, 0, 0, 0, 0, 0, 0], 21),
    (6, [0x80, 0x20, 0, 0, 0, 0, 0], 21),
    (6, [0x80, 0, 0, 0, 2, 0, 0], 21),
    // with 27, 29, 30, 31, 32
    (6, [0x80, 0, 0, 0, 0, 1, 0], 21),
    (6, [0x0c, 0x24, 0, 0, 0, 1, 0], 21),
    (6, [0x02, 0x22, 0x20, 0, 0, 0, 0], 21),
    (6, [0x04, 0x24, 0x20, 0, 0, 0, 0], 21),
    (6, [0x08, 0x24, 0, 0, 1, 0, 0], 21),
    // 27
    (6, [0x80, 0, 0, 0, 0, 0, 0], 27),
    // 29: the target's own page, zone 6, zone 63, zone 6 with eight partners
    (6, [0x00, 0x24, 0, 0, 0, 0, 0], 29),
    (6, [0x0c, 0x24, 0, 0, 0, 0, 0], 29),
    (6, [0x7e, 0x24, 0, 0, 0, 0, 0], 29),
    (6, [0x0c, 0x24, 0x68, 0xac, 0xf0, 0, 0], 29),
    // with 30, where the target's own tokens have no partners, and the same one
    (6, [0x00, 0, 0, 0, 0, 0, 0], 29),
    (6, [0x00, 0x22, 0, 0, 0, 0, 0], 29),
    // 30: partners 0 and 2, 1 and 0, 1 and 1, 1 and 3, 9 and 2
    (6, [0x02, 0x04, 0, 0, 0, 0, 0], 30),
    (6, [0x02, 0x20, 0, 0, 0, 0, 0], 30),
    (6, [0x02, 0x22, 0, 0, 0, 0, 0], 30),
    (6, [0x02, 0x26, 0, 0, 0, 0, 0], 30),
    (6, [0x03, 0x24, 0, 0, 0, 0, 0], 30),
    // with 31, with 32, with both
    (6, [0x04, 0x22, 0, 0, 0, 0, 0], 30),
    (6, [0x08, 0x22, 0, 0, 0, 0, 0], 30),
    (6, [0x0a, 0x22, 0, 0, 0, 0, 0], 30),
    // 31, and with 32
    (6, [0x04, 0x24, 0, 0, 0, 0, 0], 31),
    (6, [0x0a, 0x24, 0, 0, 0, 0, 0], 31),
    // 32, with the two tokens in either order
    (6, [0x08, 0x24, 0, 0, 0, 0, 0], 32),
    (6, [0x08, 0x42, 0, 0, 0, 0, 0], 32),
];

// Listing, with five zones.
fn five_listed<'a, B: Bound + PartialEq>(
    rt: &impl Abort,
    heap: Global,
    bytes: &'a [u8],
) -> Result<Fixture<'a, B>, Fail> {
    let mut line: Fixture<'_, B> = line_at(rt, heap, bytes, Stage::Listing)?;
    let young = [(1, 0, 5)];
    line.gives(rt, Call::Post(&record(heap, &BOTH_IN_1, &young)?), 0)?;
    line.gives(rt, Call::Post(&record(heap, &ONE_EACH, &young)?), 0)?;
    Ok(line)
}

fn first_bytes(heap: Global, bytes: [u8; 7], length: u8) -> Result<Vec<u8>, Fail> {
    let mut first = Vec::from_slice(heap, &bytes)?;
    first.truncate(usize::from(length));
    Ok(first)
}

// Under memory of other lengths it is 41; where this is not the stage, 40.
fn check_rows<B: Bound + PartialEq>(
    rt: &impl Abort,
    line: &mut Fixture<'_, B>,
    is_proving: bool,
) -> Result<(), Fail> {
    for (length, bytes, number) in AT_TARGET {
        let voucher = first_bytes(line.heap, bytes, length)?;
        let (refusal, not_whole) = if is_proving { (number, 41) } else { (40, 40) };
        line.refuses_each(rt, Call::Discharge(&voucher), refusal, not_whole)?;
    }
    Ok(())
}

fn check_stages<B: Bound + PartialEq>(rt: &impl Abort, heap: Global) -> Result<(), Fail> {
    let bytes = two_carriers(heap)?;
    for stage in [Stage::Blank, Stage::Listing, Stage::Full, Stage::Sealed] {
        let mut line: Fixture<'_, B> = line_at(rt, heap, &bytes, stage)?;
        check_rows(rt, &mut line, false)?;
        line.refuses_each(rt, Call::Discharge(&ZONE_1), 40, 40)?;
    }
    let mut line: Fixture<'_, B> = five_listed(rt, heap, &bytes)?;
    line.gives(rt, Call::Close, 0)?;
    check_rows(rt, &mut line, true)?;
    // one that is allowed, but for the memory
    line.refuses_each(rt, Call::Discharge(&ZONE_1), 0, 41)?;
    // the two tokens in the other order
    let crossed = [0x02, 0x42, 0, 0, 0, 0];
    line.gives(rt, Call::Discharge(&crossed), 0)
}

#[test]
fn plain_vouchers_are_refused_by_number(rt: HostRuntime) -> Result<(), Fail> {
    check_stages::<PlainBound>(&rt, rt.alloc())
}

#[test]
fn marked_vouchers_are_refused_by_number(rt: HostRuntime) -> Result<(), Fail> {
    check_stages::<MarkedBound>(&rt, rt.alloc())
}

// The item that is due, a voucher for it, and its number; 0 where it is taken, and the next item is
// due.
type Step = ((u8, u8, u16), [u8; 6], u8);

// Each pairs token 1 with 1.
const BY_ZONE_1: [u8; 6] = [0x02, 0x20, 0, 0, 0, 0];

const BY_ZONE_2: [u8; 6] = [0x04, 0x20, 0, 0, 0, 0];

const BY_ZONE_3: [u8; 6] = [0x06, 0x20, 0, 0, 0, 0];

const VOID: [u8; 6] = [0x80, 0, 0, 0, 0, 0];

// The target and zone 1 are a token in place 1 of age 1 and more, zone 2 one of any age.
const OLD_TOKEN: [Step; 33] = [
    ((0, 0, 0), VOID, 27),
    ((0, 0, 0), BY_ZONE_3, 29),
    ((0, 0, 0), BY_ZONE_1, 0),
    // a delay before, the token was of any age; the target's page differs by its bound too
    ((1, 0, 0), VOID, 27),
    ((1, 0, 0), [0x00, 0x20, 0, 0, 0, 0], 29),
    ((1, 0, 0), [0x02, 0x40, 0, 0, 0, 0], 30),
    ((1, 0, 0), BY_ZONE_1, 32),
    ((1, 0, 0), BY_ZONE_2, 0),
    // a firing that gave none of the tokens took one of age 1 to 2 from place 0: token 2
    ((1, 1, 0), [0x80, 0, 0, 0, 0, 1], 21),
    ((1, 1, 0), VOID, 27),
    // the target's page, with the token in another place too
    ((1, 1, 0), [0x00, 0x40, 0, 0, 0, 0], 29),
    ((1, 1, 0), [0x02, 0, 0, 0, 0, 0], 30),
    ((1, 1, 0), [0x02, 0x60, 0, 0, 0, 0], 30),
    ((1, 1, 0), [0x02, 0x40, 0, 0, 0, 0], 31),
    ((1, 1, 0), BY_ZONE_1, 0),
    // void: no token of age 1 and more was just put there at age 0. 21 before 28, by a spare bit
    // and by a second partner
    ((1, 1, 0x1000), [0x02, 0x20, 0, 0, 0, 1], 21),
    ((1, 1, 0x1000), [0x02, 0x22, 0, 0, 0, 0], 21),
    ((1, 1, 0x1000), [0x82, 0, 0, 0, 0, 0], 21),
    ((1, 1, 0x1000), [0x80, 0x20, 0, 0, 0, 0], 21),
    ((1, 1, 0x1000), BY_ZONE_1, 28),
    ((1, 1, 0x1000), BY_ZONE_2, 28),
    // with 29, and with a partner that is none
    ((1, 1, 0x1000), [0x00, 0x20, 0, 0, 0, 0], 28),
    ((1, 1, 0x1000), BY_ZONE_3, 28),
    ((1, 1, 0x1000), [0x04, 0, 0, 0, 0, 0], 28),
    ((1, 1, 0x1000), VOID, 0),
    ((2, 0, 0), BY_ZONE_1, 32),
    ((2, 0, 0), VOID, 27),
    ((2, 0, 0), BY_ZONE_2, 0),
    ((2, 1, 0), VOID, 27),
    ((2, 1, 0), BY_ZONE_2, 0),
    // a token of any age may have been put there: what is left is the one of place 0
    ((2, 1, 0x1000), VOID, 27),
    ((2, 1, 0x1000), BY_ZONE_1, 31),
    ((2, 1, 0x1000), BY_ZONE_2, 31),
];

// Under marked kind. The target and zone 3 are a token in place 1 up to 2 old, zone 1 one above 0
// and up to 2, zone 2 one below 2.
const STRICT: [Step; 17] = [
    ((0, 0, 0), BY_ZONE_1, 32),
    ((0, 0, 0), BY_ZONE_2, 32),
    ((0, 0, 0), BY_ZONE_3, 0),
    ((1, 0, 0), BY_ZONE_1, 32),
    ((1, 0, 0), BY_ZONE_2, 32),
    ((1, 0, 0), BY_ZONE_3, 0),
    ((1, 1, 0), BY_ZONE_2, 32),
    ((1, 1, 0), BY_ZONE_1, 0),
    // void: no token above 0 was just put there at age 0
    ((1, 1, 0x1000), BY_ZONE_1, 28),
    ((1, 1, 0x1000), VOID, 0),
    // up to 2 allows what is below 2, and not the other way round
    ((2, 0, 0), BY_ZONE_1, 32),
    ((2, 0, 0), BY_ZONE_2, 0),
    ((2, 1, 0), VOID, 27),
    ((2, 1, 0), BY_ZONE_3, 0),
    // not void: a token of age 0 is below 2
    ((2, 1, 0x1000), BY_ZONE_1, 31),
    ((2, 1, 0x1000), BY_ZONE_2, 31),
    ((2, 1, 0x1000), VOID, 27),
];

// A docket of zones of one token in place 1, the first of them the target, closed.
fn one_token<'a, B: Bound + PartialEq>(
    rt: &impl Abort,
    heap: Global,
    bytes: &'a [u8],
    zones: &[[Listed; 2]],
) -> Result<Fixture<'a, B>, Fail> {
    let mut line: Fixture<'_, B> = Fixture::blank(heap, bytes)?;
    for (number, listed) in zones.iter().enumerate() {
        let zone = record(heap, &ONE_IN_1, listed)?;
        let call = if number == 0 {
            Call::Open(&[0], &[0], &zone)
        } else {
            Call::Post(&zone)
        };
        line.gives(rt, call, 0)?;
    }
    line.gives(rt, Call::Close, 0)?;
    Ok(line)
}

fn check_steps<B: Bound + PartialEq>(
    rt: &impl Abort,
    heap: Global,
    zones: &[[Listed; 2]],
    steps: &[Step],
) -> Result<(), Fail> {
    let bytes = two_carriers(heap)?;
    let mut line: Fixture<'_, B> = one_token(rt, heap, &bytes, zones)?;
    for (due, voucher, number) in steps {
        assert_eq!(rt; line.docket.next_due(), Some(item(*due)));
        line.gives(rt, Call::Discharge(voucher), *number)?;
    }
    Ok(())
}

#[test]
fn an_old_token_was_not_just_put_there(rt: HostRuntime) -> Result<(), Fail> {
    let old = [(1, 0, NO_LIMIT), (0, 1, MINUS_1)];
    let any = [(1, 0, NO_LIMIT), (0, 1, NO_LIMIT)];
    let zones = [old, old, any];
    check_steps::<PlainBound>(&rt, rt.alloc(), &zones, &OLD_TOKEN)?;
    check_steps::<MarkedBound>(&rt, rt.alloc(), &zones, &OLD_TOKEN)
}

#[test]
fn strict_bounds_vouch_for_less(rt: HostRuntime) -> Result<(), Fail> {
    let up_to_2 = [(1, 0, 2), (0, 1, NO_LIMIT)];
    let above_0 = [(1, 0, 2), (0, 1, STRICT_0)];
    let below_2 = [(1, 0, BELOW_2), (0, 1, NO_LIMIT)];
    let zones = [up_to_2, above_0, below_2, up_to_2];
    check_steps::<MarkedBound>(&rt, rt.alloc(), &zones, &STRICT)
}
