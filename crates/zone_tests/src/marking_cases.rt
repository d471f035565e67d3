// Which zones an initial marking satisfies.
use crate::drafts::draft;
use bounds::{Bound, MarkedBound};
use docket_records::token::InitialToken;
use std::test::Fail;
use test_records::zone_bytes::{BELOW_2, Listed, record};
use zone_drafts::draft::DRAFT_CELLS;
use zone_markings::{InitialTokens, satisfies};
use zone_reading::read_zone;

// Tokens of these ages in place 0.
fn aged(ages: &[u16]) -> InitialTokens {
    let mut tokens = InitialTokens::new();
    for age in ages {
        let _ = tokens.try_push(InitialToken {
            place: 0,
            age: *age,
        });
    }
    tokens
}

#[test]
fn a_marking_satisfies_a_zone(rt: HostRuntime) -> Result<(), Fail> {
    let heap = rt.alloc();
    let at_most_2 = draft(heap, &[1], &[(1, 0, 2)])?;
    assert!(rt; satisfies(&aged(&[2]), &at_most_2, &[0]));
    assert!(rt; !satisfies(&aged(&[3]), &at_most_2, &[0]));
    assert!(rt; !satisfies(&aged(&[2]), &at_most_2, &[1]));
    assert!(rt; !satisfies(&aged(&[]), &at_most_2, &[0]));
    // a zone of no tokens
    assert!(rt; satisfies(&aged(&[]), &at_most_2, &[]));
    // the first token of the zone has to leave the first of the marking to the second
    let both = draft(heap, &[2], &[(1, 0, 5), (2, 0, 1)])?;
    assert!(rt; satisfies(&aged(&[0, 4]), &both, &[0, 0]));
    assert!(rt; !satisfies(&aged(&[2, 4]), &both, &[0, 0]));
    assert!(rt; !satisfies(&aged(&[0]), &both, &[0, 0]));
    // below 2
    let listed: [Listed; 1] = [(1, 0, BELOW_2)];
    let mut below_2 = [MarkedBound::no_limit(); DRAFT_CELLS];
    read_zone(&record(heap, &[1], &listed)?, 3, &mut below_2)?;
    assert!(rt; satisfies(&aged(&[1]), &below_2, &[0]));
    assert!(rt; !satisfies(&aged(&[2]), &below_2, &[0]));
    Ok(())
}
