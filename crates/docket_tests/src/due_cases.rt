// What is due for the line of two carriers.
use crate::stages::two_carriers;
use bounds::PlainBound;
use docket_dues::Item;
use docket_items::next_due;
use net_records::packed::PackedNet;
use std::test::Fail;

// The places of the tokens of a listed zone; of the target none are asked.
fn places_of(zone: u8) -> &'static [u8] {
    match zone {
        1 => &[1, 1],
        2 => &[1, 0],
        3 => &[0, 0],
        _ => &[],
    }
}

/// Zone, transition and matching of each item, in order.
pub const ITEMS: [(u8, u8, u16); 10] = [
    (0, 0, 0),
    (1, 0, 0),
    (1, 1, 0),
    (1, 1, 0x1000),
    (1, 1, 0x2000),
    (2, 0, 0),
    (2, 1, 0),
    (2, 1, 0x1000),
    (3, 0, 0),
    (3, 1, 0),
];

/// An item by its three numbers.
pub fn item(listed: (u8, u8, u16)) -> Item {
    let (zone, transition, matching) = listed;
    Item {
        zone,
        transition,
        matching,
    }
}

#[test]
fn ten_items_are_due(rt: HostRuntime) -> Result<(), Fail> {
    let bytes = two_carriers(rt.alloc())?;
    let store = PackedNet::read(&bytes).ok().ok_or("no net")?;
    let followers = ITEMS.iter().skip(1).map(|later| Some(item(*later)));
    for (listed, later) in ITEMS.iter().zip(followers.chain([None])) {
        let due = item(*listed);
        let places = places_of(due.zone);
        assert_eq!(rt; next_due::<PlainBound, _>(&store, 3, places, due), later);
    }
    Ok(())
}
