// The docket of the line of two carriers, from the blank one to its seal.
use crate::due_cases::{ITEMS, item};
use crate::fixture::{Call, Fixture};
use crate::stages::*;
use bounds::{Bound, MarkedBound, PlainBound};
use std::alloc::Global;
use std::process::Abort;
use std::test::Fail;
use test_records::zone_bytes::record;

// Whether it is proving, whether it is sealed, and its listed zones and vouchers.
const ANSWERS: [(Stage, bool, bool, u8, u64); 5] = [
    (Stage::Blank, false, false, 0, 0),
    (Stage::Listing, false, false, 3, 0),
    (Stage::Full, false, false, 63, 0),
    (Stage::Proving, true, false, 3, 0),
    (Stage::Sealed, false, true, 3, 10),
];

// In proving the target is due; close is refused with 40 but while listing.
fn check_answers<B: Bound + PartialEq>(rt: &impl Abort, heap: Global) -> Result<(), Fail> {
    let bytes = two_carriers(heap)?;
    for (stage, is_proving, is_sealed, listed, taken) in ANSWERS {
        let mut line: Fixture<'_, B> = line_at(rt, heap, &bytes, stage)?;
        let due = is_proving.then_some(item((0, 0, 0)));
        assert_eq!(rt; line.docket.next_due(), due, "{stage:?}");
        assert_eq!(rt; line.docket.is_sealed(), is_sealed, "{stage:?}");
        assert_eq!(rt; line.docket.listed(), listed, "{stage:?}");
        assert_eq!(rt; line.docket.taken(), taken, "{stage:?}");
        let is_listing = matches!(stage, Stage::Listing | Stage::Full);
        let refusal = if is_listing { 0 } else { 40 };
        line.gives(rt, Call::Close, refusal)?;
    }
    Ok(())
}

#[test]
fn each_stage_answers_for_itself(rt: HostRuntime) -> Result<(), Fail> {
    check_answers::<PlainBound>(&rt, rt.alloc())?;
    check_answers::<MarkedBound>(&rt, rt.alloc())
}

fn check_seal<B: Bound + PartialEq>(rt: &impl Abort, heap: Global) -> Result<(), Fail> {
    let bytes = two_carriers(heap)?;
    let mut line: Fixture<'_, B> = line_at(rt, heap, &bytes, Stage::Proving)?;
    for (due, voucher) in ITEMS.iter().zip(VOUCHERS.iter()) {
        assert_eq!(rt; line.docket.next_due(), Some(item(*due)));
        assert!(rt; !line.docket.is_sealed());
        line.gives(rt, Call::Discharge(voucher), 0)?;
    }
    assert_eq!(rt; line.docket.next_due(), None);
    assert_eq!(rt; line.docket.taken(), 10);
    assert!(rt; line.docket.is_sealed());
    Ok(())
}

#[test]
fn ten_vouchers_seal(rt: HostRuntime) -> Result<(), Fail> {
    check_seal::<PlainBound>(&rt, rt.alloc())?;
    check_seal::<MarkedBound>(&rt, rt.alloc())
}

#[test]
fn a_list_without_zones_is_never_sealed(rt: HostRuntime) -> Result<(), Fail> {
    let heap = rt.alloc();
    let bytes = two_carriers(heap)?;
    let mut line: Fixture<'_, PlainBound> = Fixture::blank(heap, &bytes)?;
    let target = record(heap, &BOTH_IN_1, &[])?;
    line.gives(&rt, Call::Open(&[0], &[0], &target), 0)?;
    line.gives(&rt, Call::Close, 0)?;
    assert_eq!(rt; line.docket.listed(), 0);
    // the target's own page, zone 1, void
    line.gives(&rt, Call::Discharge(&[0x00, 0x24, 0, 0, 0, 0]), 29)?;
    line.gives(&rt, Call::Discharge(&ZONE_1), 29)?;
    line.gives(&rt, Call::Discharge(&[0x80, 0, 0, 0, 0, 0]), 27)?;
    assert_eq!(rt; line.docket.next_due(), Some(item((0, 0, 0))));
    assert!(rt; !line.docket.is_sealed());
    Ok(())
}
