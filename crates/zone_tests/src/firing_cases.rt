// The firing predecessor and the matchings of one transition.
use crate::drafts::{check_bounds, draft};
use bounds::PlainBound;
use net_records::packed::PackedNet;
use std::alloc::{AllocError, Global};
use std::test::Fail;
use test_records::net_bytes::one_transition;
use zone_drafts::firing::firing_predecessor;
use zone_matchings::{is_matching, next_matching};

const A: u8 = 0;

const B: u8 = 1;

const C: u8 = 2;

// The header of a record with tokens in B and C.
const IN_B_AND_C: [u8; 3] = [2, 0x04, 0x20];

// The header of a net with places A, B and C and one transition.
const HEADER: [u8; 4] = [0x42, 0x02, 0x00, 0x00];

// A token of A, of age 0 to 1.
const TAKEN: [u8; 5] = [0x00, 0x00, 0x00, 0x00, 0x02];

// A token of C, of age 3.
const GIVEN: [u8; 5] = [0x08, 0x00, 0x0c, 0x00, 0x06];

fn net_record(heap: Global) -> Result<Vec<u8>, AllocError> {
    one_transition(heap, &HEADER, TAKEN, GIVEN)
}

#[test]
fn a_firing_narrows_before_it_takes_off(rt: HostRuntime) -> Result<(), Fail> {
    let heap = rt.alloc();
    let bytes = net_record(heap)?;
    let store = PackedNet::read(&bytes).ok().ok_or("no net")?;
    let mut cells = draft(heap, &IN_B_AND_C, &[(1, 2, 0), (2, 1, 0)])?;
    let tokens = firing_predecessor(&mut cells, &[B, C], &store, 1, 0x2000).ok_or("void")?;
    assert_eq!(rt; tokens.as_slice(), [B, A].as_slice());
    check_bounds(&rt, &cells, &[(0, 0, 0), (0, 1, -3), (0, 2, 0)]);
    check_bounds(&rt, &cells, &[(1, 0, 3), (1, 1, 0), (1, 2, 3)]);
    check_bounds(&rt, &cells, &[(2, 0, 1), (2, 1, -2), (2, 2, 0)]);
    // with no token matched
    let mut cells = draft(heap, &IN_B_AND_C, &[(1, 2, 0), (2, 1, 0)])?;
    let tokens = firing_predecessor(&mut cells, &[B, C], &store, 1, 0).ok_or("void")?;
    assert_eq!(rt; tokens.as_slice(), [B, C, A].as_slice());
    check_bounds(&rt, &cells, &[(0, 1, 0), (0, 2, 0), (0, 3, 0)]);
    check_bounds(&rt, &cells, &[(1, 2, 0), (2, 1, 0)]);
    check_bounds(&rt, &cells, &[(3, 0, 1), (3, 1, 1), (3, 2, 1), (3, 3, 0)]);
    // a token in C of age 2 at most was not given at age 3
    let mut cells = draft(heap, &[1, 0x08], &[(1, 0, 2)])?;
    assert!(rt; firing_predecessor(&mut cells, &[C], &store, 1, 0x1000).is_none());
    Ok(())
}

#[test]
fn matchings_in_ascending_order(rt: HostRuntime) -> Result<(), Fail> {
    let bytes = net_record(rt.alloc())?;
    let store = PackedNet::read(&bytes).ok().ok_or("no net")?;
    let places = [B, C, C];
    for matching in [0, 0x2000, 0x3000] {
        assert!(rt; is_matching::<PlainBound, _>(&store, 1, &places, matching));
    }
    // a token in B, no such token, no such arc
    for number in [0x1000, 0x4000, 0x0200, 0x2003] {
        assert!(rt; !is_matching::<PlainBound, _>(&store, 1, &places, number));
    }
    for (after, next) in [
        (0, Some(0x2000)),
        (0x1000, Some(0x2000)),
        (0x2000, Some(0x3000)),
        (0x2fff, Some(0x3000)),
        (0x3000, None),
        (0xffff, None),
    ] {
        let found = next_matching::<PlainBound, _>(&store, 1, &places, after);
        assert_eq!(rt; found, next);
    }
    Ok(())
}
