// What the records of the net are refused for: 10 to 15.
use crate::file::*;
use std::alloc::AllocError;

// From place 0, age 3 to 2.
const EMPTY_RANGE: [u8; 5] = [0x00, 0x00, 0x0c, 0x00, 0x04];

// Into place 2 of 0 and 1.
const PLACE_2: [u8; 5] = [0x08, 0x00, 0x00, 0x00, 0x00];

#[test]
fn bytes_are_missing(rt: HostRuntime) -> Result<(), AllocError> {
    for (length, line) in [
        (0, "refused 10 0"),
        (3, "refused 10 0"),
        (4, "refused 10 1"),
        (20, "refused 10 1"),
        (44, "refused 10 1"),
    ] {
        File { length, ..CARRIERS }.gives(&rt, rt.alloc(), line)?;
    }
    Ok(())
}

#[test]
fn the_net_header_is_refused(rt: HostRuntime) -> Result<(), AllocError> {
    for (net, line) in [
        // the first and the last spare bit
        ([0x01, 0x03, 0x00, 0x00], "refused 11 0"),
        ([0x01, 0x02, 0x00, 0x01], "refused 11 0"),
        // kind 3, 65 transitions; both with a spare bit
        ([0xc1, 0x02, 0x00, 0x00], "refused 12 0"),
        ([0x01, 0x82, 0x00, 0x00], "refused 12 0"),
        ([0xc1, 0x82, 0x00, 0x01], "refused 11 0"),
        // one place: place 1 is not in the net
        ([0x00, 0x02, 0x00, 0x00], "refused 13 1"),
    ] {
        File { net, ..CARRIERS }.gives(&rt, rt.alloc(), line)?;
    }
    Ok(())
}

#[test]
fn an_input_slot_is_refused(rt: HostRuntime) -> Result<(), AllocError> {
    for (taken, line) in [
        // the spare bit, an end behind the no-limit flag
        ([0x00, 0x00, 0x04, 0x00, 0x05], "refused 11 1"),
        ([0x00, 0x00, 0x06, 0x00, 0x04], "refused 11 1"),
        // place 2, above 3 and up to 2
        ([0x0a, 0x00, 0x0c, 0x00, 0x04], "refused 13 1"),
        (EMPTY_RANGE, "refused 15 1"),
    ] {
        File { taken, ..CARRIERS }.gives(&rt, rt.alloc(), line)?;
    }
    Ok(())
}

// The lines under marked kind.
#[test]
fn strict_ends_are_refused_under_plain_kind(rt: HostRuntime) -> Result<(), AllocError> {
    for (taken, marked) in [
        // above 1 and up to 2, 1 to below 2, above 1 and below 2
        ([0x02, 0x00, 0x04, 0x00, 0x04], "sealed 3 10"),
        ([0x00, 0x00, 0x05, 0x00, 0x04], "sealed 3 10"),
        ([0x02, 0x00, 0x05, 0x00, 0x04], "sealed 3 10"),
        // 2 to below 2
        ([0x00, 0x00, 0x09, 0x00, 0x04], "refused 15 1"),
    ] {
        File { taken, ..CARRIERS }.gives_each(&rt, rt.alloc(), "refused 14 1", marked)?;
    }
    Ok(())
}

// The net's faults count before those of the docket part.
#[test]
fn the_lowest_number_and_the_first_record_count(rt: HostRuntime) -> Result<(), AllocError> {
    let heap = rt.alloc();
    let given = PLACE_2;
    File { given, ..CARRIERS }.gives(&rt, heap, "refused 13 1")?;
    let taken = EMPTY_RANGE;
    let both = File {
        taken,
        given,
        ..CARRIERS
    };
    both.gives(&rt, heap, "refused 13 1")?;
    let docket = [0x10, 0xc0, 0x00, 0x01];
    let later = File {
        taken,
        docket,
        ..CARRIERS
    };
    later.gives(&rt, heap, "refused 15 1")
}
