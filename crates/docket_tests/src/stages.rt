// Dockets of the line of two carriers at each of their stages, and what is asked of each stage.
use crate::fixture::{Call, Fixture};
use bounds::Bound;
use std::alloc::Global;
use std::process::Abort;
use std::test::Fail;
use test_records::net_bytes::one_transition;
use test_records::zone_bytes::record;

/// The record, by the count and the places of its tokens, of two in place 1.
pub const BOTH_IN_1: [u8; 3] = [2, 0x04, 0x10];

/// Of one in place 1 and one in place 0.
pub const ONE_EACH: [u8; 2] = [2, 0x04];

/// Of two in place 0.
pub const BOTH_IN_0: [u8; 1] = [2];

/// Of one in place 1.
pub const ONE_IN_1: [u8; 2] = [1, 0x04];

/// Names listed zone 1, and pairs 1 with 1 and 2 with 2.
pub const ZONE_1: [u8; 6] = [0x02, 0x24, 0, 0, 0, 0];

/// The same of zone 2.
pub const ZONE_2: [u8; 6] = [0x04, 0x24, 0, 0, 0, 0];

/// The same of zone 3.
pub const ZONE_3: [u8; 6] = [0x06, 0x24, 0, 0, 0, 0];

/// A voucher for each item that is due.
pub const VOUCHERS: [[u8; 6]; 10] = [
    ZONE_1, ZONE_1, ZONE_1, ZONE_2, ZONE_2, ZONE_2, ZONE_2, ZONE_3, ZONE_3, ZONE_3,
];

/// A stage of a docket, with one more of a full list.
#[derive(Clone, Copy, PartialEq, Eq, Debug)]
pub enum Stage {
    Blank,
    Listing,
    // listing, with 63 zones
    Full,
    Proving,
    Sealed,
}

/// All of them, in order.
pub const STAGES: [Stage; 5] = [
    Stage::Blank,
    Stage::Listing,
    Stage::Full,
    Stage::Proving,
    Stage::Sealed,
];

/// A net of two places: from place 0, age 1 to 2, into place 1 at age 0.
pub fn two_carriers(heap: Global) -> Result<Vec<u8>, Fail> {
    Ok(one_transition(
        heap,
        &[0x41, 0x02, 0x00, 0x00],
        [0x00, 0x00, 0x04, 0x00, 0x04],
        [0x04, 0x00, 0x00, 0x00, 0x00],
    )?)
}

/// Opened with a token of age 2 in place 0, with its three zones listed.
pub fn listing<'a, B: Bound + PartialEq>(
    rt: &impl Abort,
    heap: Global,
    bytes: &'a [u8],
) -> Result<Fixture<'a, B>, Fail> {
    let mut line = Fixture::blank(heap, bytes)?;
    let target = record(heap, &BOTH_IN_1, &[])?;
    line.gives(rt, Call::Open(&[0], &[2], &target), 0)?;
    line.gives(rt, Call::Post(&target), 0)?;
    line.gives(rt, Call::Post(&record(heap, &ONE_EACH, &[])?), 0)?;
    line.gives(rt, Call::Post(&record(heap, &BOTH_IN_0, &[])?), 0)?;
    Ok(line)
}

// The stages after listing.
fn lead_on<B: Bound + PartialEq>(
    rt: &impl Abort,
    line: &mut Fixture<'_, B>,
    stage: Stage,
) -> Result<(), Fail> {
    if stage == Stage::Full {
        let zone = record(line.heap, &BOTH_IN_1, &[])?;
        for _ in 3..63 {
            line.gives(rt, Call::Post(&zone), 0)?;
        }
    }
    if stage == Stage::Proving || stage == Stage::Sealed {
        line.gives(rt, Call::Close, 0)?;
    }
    if stage == Stage::Sealed {
        for voucher in VOUCHERS {
            line.gives(rt, Call::Discharge(&voucher), 0)?;
        }
    }
    Ok(())
}

/// A docket of the line at this stage.
pub fn line_at<'a, B: Bound + PartialEq>(
    rt: &impl Abort,
    heap: Global,
    bytes: &'a [u8],
    stage: Stage,
) -> Result<Fixture<'a, B>, Fail> {
    if stage == Stage::Blank {
        return Fixture::blank(heap, bytes);
    }
    let mut line = listing(rt, heap, bytes)?;
    lead_on(rt, &mut line, stage)?;
    Ok(line)
}
