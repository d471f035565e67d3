// What the records before the vouchers are refused for: 20 to 26.
use crate::file::*;
use std::alloc::AllocError;
use test_records::zone_bytes::*;

#[test]
fn records_are_cut_short(rt: HostRuntime) -> Result<(), AllocError> {
    for (length, line) in [
        // the net alone, and a byte less than header, token, target and each zone
        (45, "refused 20 2"),
        (48, "refused 20 2"),
        (51, "refused 20 3"),
        (52, "refused 20 4"),
        (243, "refused 20 4"),
        (435, "refused 20 5"),
        (627, "refused 20 6"),
        (819, "refused 20 7"),
    ] {
        File { length, ..CARRIERS }.gives(&rt, rt.alloc(), line)?;
    }
    Ok(())
}

// Of the docket header: its bytes, and the line.
#[test]
fn the_docket_header_is_refused(rt: HostRuntime) -> Result<(), AllocError> {
    for (docket, line) in [
        // the first and the last spare bit
        ([0x10, 0xe0, 0x00, 0x00], "refused 21 2"),
        ([0x10, 0xc0, 0x00, 0x01], "refused 21 2"),
        // a fourth zone: the vouchers are too few bytes for it
        ([0x11, 0x00, 0x00, 0x00], "refused 20 8"),
    ] {
        File { docket, ..CARRIERS }.gives(&rt, rt.alloc(), line)?;
    }
    Ok(())
}

#[test]
fn initial_tokens_are_refused(rt: HostRuntime) -> Result<(), AllocError> {
    for (token, line) in [
        // the last and the first spare bit
        ([0x00, 0x00, 0x01], "refused 21 3"),
        ([0x00, 0x00, 0x04], "refused 21 3"),
        // place 2, at the target's record; with a spare bit
        ([0x08, 0x00, 0x00], "refused 23 4"),
        ([0x08, 0x00, 0x01], "refused 21 3"),
    ] {
        let file = File {
            tokens: &[token],
            ..CARRIERS
        };
        file.gives(&rt, rt.alloc(), line)?;
    }
    Ok(())
}

#[test]
fn nine_initial_tokens_are_refused(rt: HostRuntime) -> Result<(), AllocError> {
    for (last, length, line) in [
        ([0; 3], usize::MAX, "refused 22 12"),
        // in place 2; with a spare bit; with a target that is cut short
        ([0x08, 0x00, 0x00], usize::MAX, "refused 22 12"),
        ([0x00, 0x00, 0x01], usize::MAX, "refused 21 11"),
        ([0; 3], 100, "refused 20 12"),
    ] {
        let none = [0; 3];
        let nine = File {
            docket: [0x90, 0xc0, 0x00, 0x00],
            tokens: &[none, none, none, none, none, none, none, none, last],
            length,
            ..CARRIERS
        };
        nine.gives(&rt, rt.alloc(), line)?;
    }
    Ok(())
}

// Two in places 1 and 0 satisfy zone 2, which is record 7; two in place 0 zone 3.
#[test]
fn an_initial_marking_is_listed(rt: HostRuntime) -> Result<(), AllocError> {
    for (first, line) in [
        ([0x04, 0x00, 0x00], "refused 26 7"),
        ([0x00, 0x00, 0x00], "refused 26 8"),
    ] {
        let two = File {
            docket: [0x20, 0xc0, 0x00, 0x00],
            tokens: &[first, [0; 3]],
            ..CARRIERS
        };
        two.gives(&rt, rt.alloc(), line)?;
    }
    Ok(())
}

// Ages of token 1: below 2, above 1, 3 at least and up to 2, 3 at least and below 2.
const BELOW: [Listed; 2] = [(1, 0, BELOW_2), (0, 1, NO_LIMIT)];

const ABOVE: [Listed; 2] = [(1, 0, NO_LIMIT), (0, 1, ABOVE_1)];

const NO_AGE: [Listed; 2] = [(1, 0, 2), (0, 1, MINUS_3)];

const NO_STRICT_AGE: [Listed; 2] = [(1, 0, BELOW_2), (0, 1, MINUS_3)];

// A strict 1 in the clock's row, an age above -1, as every age is.
const ABOVE_MINUS_1: [Listed; 2] = [(1, 0, NO_LIMIT), (0, 1, 0x80001)];

// A mark on no limit, and the bound of an absent token.
const MARKED: [Listed; 2] = [(1, 0, MARKED_NO_LIMIT), (0, 1, NO_LIMIT)];

const ABSENT: [Listed; 2] = [(1, 0, NO_LIMIT), (3, 0, 0)];

// A record's first bytes, its bounds, and the number that refuses it.
const RECORDS: [([u8; 3], [Listed; 2], u8); 9] = [
    // spare bits, the place of an absent token, a mark on no limit, the bound of an absent token
    ([0x12, 0x04, 0x10], ANY_AGE, 21),
    ([2, 0x04, 0x14], ANY_AGE, 21),
    ([2, 0x04, 0x10], MARKED, 21),
    ([2, 0x04, 0x10], ABSENT, 21),
    // nine tokens; with a spare bit
    ([9, 0x04, 0x10], ANY_AGE, 22),
    ([0x19, 0x04, 0x10], ANY_AGE, 21),
    // token 2 in place 2; with no age
    ([2, 0x04, 0x20], ANY_AGE, 23),
    ([2, 0x04, 0x20], NO_AGE, 23),
    ([2, 0x04, 0x10], NO_AGE, 25),
];

#[test]
fn a_target_is_refused(rt: HostRuntime) -> Result<(), AllocError> {
    for (header, listed, number) in RECORDS {
        let target = Zone { header, listed };
        File { target, ..CARRIERS }.refuses(&rt, rt.alloc(), number, 4)?;
    }
    Ok(())
}

#[test]
fn a_listed_zone_is_refused(rt: HostRuntime) -> Result<(), AllocError> {
    for (header, listed, number) in RECORDS {
        let zone = Zone { header, listed };
        let first = File {
            zones: [zone, ONE_EACH, BOTH_IN_0],
            ..CARRIERS
        };
        first.refuses(&rt, rt.alloc(), number, 5)?;
        let last = File {
            zones: [BOTH_IN_1, ONE_EACH, zone],
            ..CARRIERS
        };
        last.refuses(&rt, rt.alloc(), number, 7)?;
    }
    Ok(())
}

// Zone 1 with these bounds: the line under marked kind.
#[test]
fn strict_bounds_are_refused_under_plain_kind(rt: HostRuntime) -> Result<(), AllocError> {
    for (listed, marked) in [
        // less than the target
        (BELOW, "refused 32 8"),
        (ABOVE, "refused 32 8"),
        (ABOVE_MINUS_1, "sealed 3 10"),
        (NO_STRICT_AGE, "refused 25 5"),
    ] {
        let strict = Zone {
            listed,
            ..BOTH_IN_1
        };
        let file = File {
            zones: [strict, ONE_EACH, BOTH_IN_0],
            ..CARRIERS
        };
        file.gives_each(&rt, rt.alloc(), "refused 24 5", marked)?;
    }
    Ok(())
}

// A target of nine tokens that is cut short, and with an initial token in place 2, which is tested
// before it.
#[test]
fn the_first_fault_of_an_open_counts(rt: HostRuntime) -> Result<(), AllocError> {
    for (token, length, line) in [
        ([0; 3], usize::MAX, "refused 22 4"),
        ([0; 3], 100, "refused 20 4"),
        ([0x08, 0x00, 0x00], usize::MAX, "refused 23 4"),
        ([0x08, 0x00, 0x00], 100, "refused 20 4"),
    ] {
        let target = Zone {
            header: [9, 0x04, 0x10],
            listed: ANY_AGE,
        };
        let file = File {
            tokens: &[token],
            target,
            length,
            ..CARRIERS
        };
        file.gives(&rt, rt.alloc(), line)?;
    }
    Ok(())
}

// Zone 2 is a token in place 0, which the initial marking satisfies, and zone 3 has nine tokens.
#[test]
fn the_first_zone_counts(rt: HostRuntime) -> Result<(), AllocError> {
    let in_0 = Zone {
        header: [1, 0, 0],
        listed: ANY_AGE,
    };
    let nine = Zone {
        header: [9, 0, 0],
        listed: ANY_AGE,
    };
    let file = File {
        zones: [BOTH_IN_1, in_0, nine],
        ..CARRIERS
    };
    file.refuses(&rt, rt.alloc(), 26, 6)
}
