// The certificate that two carriers never meet at the second stop, and what it comes to with a
// fault in it.
use crate::{Certificate, Entry, Refused, Verdict, check};
use docket_dues::Item;
use docket_records::fault::EntryRefusal;
use docket_refusals::CallRefusal;
use net_handover::Handover;
use std::test::Fail;
use zone_pages::Objection;

// The record of a zone without limits, by its first three bytes: the count of its tokens, and their
// places.
fn record(head: [u8; 3]) -> [u8; 192] {
    let mut bytes = [0; 192];
    bytes[..3].copy_from_slice(&head);
    // two bounds of 20 bits, each no limit
    for pair in bytes[12..].chunks_exact_mut(5) {
        pair[0] = 0x40;
        pair[2] = 0x04;
    }
    bytes
}

// Each names a listed zone and pairs 1 with 1 and 2 with 2.
const ZONE_1: [u8; 6] = [0x02, 0x24, 0, 0, 0, 0];

const ZONE_2: [u8; 6] = [0x04, 0x24, 0, 0, 0, 0];

const ZONE_3: [u8; 6] = [0x06, 0x24, 0, 0, 0, 0];

const VOUCHERS: [[u8; 6]; 10] = [
    ZONE_1, ZONE_1, ZONE_1, ZONE_2, ZONE_2, ZONE_2, ZONE_2, ZONE_3, ZONE_3, ZONE_3,
];

const LAST_ITEM: Item = Item {
    zone: 3,
    transition: 1,
    matching: 0,
};

fn refused(entry: Entry, refusal: CallRefusal) -> Result<Verdict, Refused> {
    Err(Refused { entry, refusal })
}

#[test]
fn two_carriers_never_meet(rt: HostRuntime) -> Result<(), Fail> {
    let line = Handover::new(1, 2).expect(&rt, "such a range");
    let both_in_1 = record([2, 0x04, 0x10]);
    let zones = [both_in_1, record([2, 0x04, 0]), record([2, 0, 0])];
    let given = Certificate {
        places: &[0],
        ages: &[0],
        target: &both_in_1,
        zones: &zones,
        vouchers: &VOUCHERS,
    };
    assert_eq!(rt; check(&line, &given), Ok(Verdict::Sealed));
    let short = Certificate {
        vouchers: &VOUCHERS[..9],
        ..given
    };
    assert_eq!(rt; check(&line, &short), Ok(Verdict::StillDue(LAST_ITEM)));
    Ok(())
}

#[test]
fn the_entry_that_is_refused_is_named(rt: HostRuntime) -> Result<(), Fail> {
    let line = Handover::new(1, 2).expect(&rt, "such a range");
    let both_in_1 = record([2, 0x04, 0x10]);
    let zones = [both_in_1, record([2, 0x04, 0]), record([2, 0, 0])];
    let late = Certificate {
        places: &[0],
        ages: &[0],
        target: &both_in_1,
        zones: &zones,
        vouchers: &VOUCHERS[1..],
    };
    let places = CallRefusal::Objected(Objection::Place);
    assert_eq!(rt; check(&line, &late), refused(Entry::Voucher(2), places));
    // two carriers in place 0 are what the line begins with
    let begun = Certificate {
        places: &[0, 0],
        ages: &[0, 0],
        ..late
    };
    assert_eq!(rt;
        check(&line, &begun),
        refused(Entry::Zone(2), CallRefusal::Covered)
    );
    let outside = Certificate {
        places: &[2],
        ..late
    };
    let no_place = CallRefusal::Entry(EntryRefusal::NoSuchPlace);
    assert_eq!(rt; check(&line, &outside), refused(Entry::Opening, no_place));
    Ok(())
}
