// Sound files, and such as end before every item is answered.
use crate::file::*;
use std::alloc::{AllocError, Global};
use std::process::Abort;
use test_records::zone_bytes::{MINUS_1, NO_LIMIT};

// The line after so many of the ten vouchers.
const LINES: [&str; 11] = [
    "due 0 0 0 0",
    "due 1 0 0 1",
    "due 1 1 0 2",
    "due 1 1 4096 3",
    "due 1 1 8192 4",
    "due 2 0 0 5",
    "due 2 1 0 6",
    "due 2 1 4096 7",
    "due 3 0 0 8",
    "due 3 1 0 9",
    "sealed 3 10",
];

#[test]
fn a_file_ends_after_any_voucher(rt: HostRuntime) -> Result<(), AllocError> {
    for (taken, line) in LINES.iter().enumerate() {
        // the net 45 bytes, header 4, token 3, target and zones 192 each, a voucher 6
        let length = 52 + 4 * 192 + 6 * taken;
        File { length, ..CARRIERS }.gives(&rt, rt.alloc(), line)?;
    }
    Ok(())
}

// Pairings of token 1 with 1.
const BY_ZONE_1: [u8; 6] = [0x02, 0x20, 0, 0, 0, 0];

const BY_ZONE_2: [u8; 6] = [0x04, 0x20, 0, 0, 0, 0];

const BY_ZONE_3: [u8; 6] = [0x06, 0x20, 0, 0, 0, 0];

const VOID: [u8; 6] = [0x80, 0, 0, 0, 0, 0];

// The target and zone 1 are a token of age 1 and more in place 1, zone 2 one of any age there,
// zone 3 one in place 0. No token at first: records 0 and 1 of the net, 2 the docket header,
// 3 the target, 4 to 6 the zones, then the vouchers.
fn check_old(
    rt: &impl Abort,
    heap: Global,
    vouchers: &[[u8; 6]],
    line: &str,
) -> Result<(), AllocError> {
    let old = Zone {
        header: [1, 0x04, 0],
        listed: [(1, 0, NO_LIMIT), (0, 1, MINUS_1)],
    };
    let any = Zone {
        listed: ANY_AGE,
        ..old
    };
    let in_0 = Zone {
        header: [1, 0, 0],
        ..any
    };
    let file = File {
        docket: [0x00, 0xc0, 0x00, 0x00],
        tokens: &[],
        target: old,
        zones: [old, any, in_0],
        vouchers,
        ..CARRIERS
    };
    file.gives(rt, heap, line)
}

#[test]
fn a_void_item_takes_no_pairing(rt: HostRuntime) -> Result<(), AllocError> {
    let heap = rt.alloc();
    // a delay before it the token may be younger
    check_old(&rt, heap, &[BY_ZONE_1, BY_ZONE_1], "refused 32 8")?;
    let three = [BY_ZONE_1, BY_ZONE_2, BY_ZONE_1];
    check_old(&rt, heap, &three, "due 1 1 4096 3")?;
    // no token of age 1 and more was just put there at age 0; 28 comes before 29
    let [a, b, c] = three;
    check_old(&rt, heap, &[a, b, c, BY_ZONE_2], "refused 28 10")?;
    check_old(
        &rt,
        heap,
        &[a, b, c, [0x08, 0x20, 0, 0, 0, 0]],
        "refused 28 10",
    )?;
    check_old(&rt, heap, &[a, b, c, VOID], "due 2 0 0 4")?;
    check_old(&rt, heap, &[a, b, c, VOID, VOID], "refused 27 11")?;
    let nine = [
        a, b, c, VOID, BY_ZONE_2, BY_ZONE_2, BY_ZONE_3, BY_ZONE_3, BY_ZONE_3,
    ];
    check_old(&rt, heap, &nine, "sealed 3 9")
}
