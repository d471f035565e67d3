// What vouchers are refused for: 20, 21, 27 to 32, and 40.
use crate::file::*;
use std::alloc::AllocError;
use test_records::zone_bytes::NO_LIMIT;

const VOID: [u8; 6] = [0x80, 0, 0, 0, 0, 0];

#[test]
fn a_voucher_for_the_target_is_refused(rt: HostRuntime) -> Result<(), AllocError> {
    for (voucher, line) in [
        // the last spare bit, a third partner, void with a zone
        ([0x02, 0x24, 0, 0, 0, 0x01], "refused 21 8"),
        ([0x02, 0x24, 0x60, 0, 0, 0], "refused 21 8"),
        ([0x82, 0, 0, 0, 0, 0], "refused 21 8"),
        (VOID, "refused 27 8"),
        // zones 0 and 4; with a partner used twice
        ([0x00, 0x24, 0, 0, 0, 0], "refused 29 8"),
        ([0x08, 0x24, 0, 0, 0, 0], "refused 29 8"),
        ([0x08, 0x22, 0, 0, 0, 0], "refused 29 8"),
        // partners 1 and 1, 0 and 2, 1 and 3; with places that differ
        ([0x02, 0x22, 0, 0, 0, 0], "refused 30 8"),
        ([0x02, 0x04, 0, 0, 0, 0], "refused 30 8"),
        ([0x02, 0x26, 0, 0, 0, 0], "refused 30 8"),
        ([0x04, 0x22, 0, 0, 0, 0], "refused 30 8"),
        (ZONE_2, "refused 31 8"),
        // the two tokens in the other order
        ([0x02, 0x42, 0, 0, 0, 0], "due 1 0 0 1"),
    ] {
        let file = File {
            vouchers: &[voucher],
            ..CARRIERS
        };
        file.gives(&rt, rt.alloc(), line)?;
    }
    Ok(())
}

// Zone 1 or 2 with a token that is at most 5 old, where the items have no limit.
#[test]
fn a_bound_is_exceeded(rt: HostRuntime) -> Result<(), AllocError> {
    let heap = rt.alloc();
    let listed = [(1, 0, 5), (0, 1, NO_LIMIT)];
    let both = Zone {
        listed,
        ..BOTH_IN_1
    };
    let each = Zone { listed, ..ONE_EACH };
    for (zones, first, line) in [
        ([both, ONE_EACH, BOTH_IN_0], ZONE_1, "refused 32 8"),
        // zone 2 is asked for by record 11, the first of its four
        ([BOTH_IN_1, each, BOTH_IN_0], ZONE_1, "refused 32 11"),
        // in the target's stead its places count before
        ([BOTH_IN_1, each, BOTH_IN_0], ZONE_2, "refused 31 8"),
    ] {
        let file = File {
            zones,
            vouchers: &[first, ZONE_1, ZONE_1, ZONE_2],
            ..CARRIERS
        };
        file.gives(&rt, heap, line)?;
    }
    Ok(())
}

#[test]
fn vouchers_are_cut_short(rt: HostRuntime) -> Result<(), AllocError> {
    let heap = rt.alloc();
    for (length, line) in [
        (821, "refused 20 8"),
        (825, "refused 20 8"),
        (827, "refused 20 9"),
        (879, "refused 20 17"),
    ] {
        File { length, ..CARRIERS }.gives(&rt, heap, line)?;
    }
    // a first one that is refused counts before
    let void = File {
        vouchers: &[VOID, ZONE_1],
        length: 831,
        ..CARRIERS
    };
    void.gives(&rt, heap, "refused 27 8")
}

// After the seal every voucher is in the wrong stage, but where it is cut short no call is made.
#[test]
fn an_eleventh_voucher_is_refused(rt: HostRuntime) -> Result<(), AllocError> {
    let heap = rt.alloc();
    for (eleventh, line) in [
        (ZONE_3, "refused 40 18"),
        (VOID, "refused 40 18"),
        ([0x06, 0x24, 0, 0, 0, 0x01], "refused 40 18"),
    ] {
        let mut vouchers = [eleventh; 11];
        for (place, voucher) in vouchers.iter_mut().zip(VOUCHERS) {
            *place = voucher;
        }
        for (length, line) in [(885, "refused 20 18"), (886, line)] {
            let eleven = File {
                vouchers: &vouchers,
                length,
                ..CARRIERS
            };
            eleven.gives(&rt, heap, line)?;
        }
    }
    Ok(())
}
