//! Net records made by hand, and the refusal of each: its number and its record.
use net_records::fault::Refusal;
use net_records::net::check_net;
use std::alloc::{AllocError, Global};

/// First bytes of a header: two places of plain and of marked kind.
const PLAIN: u8 = 0x41;

const MARKED: u8 = 0x81;

/// First bytes of a transition, by how many inputs and outputs it has.
const NONE: u8 = 0x00;

const ONE_IN: u8 = 0x20;

const ONE_OUT: u8 = 0x04;

const THREE_EACH: u8 = 0x6c;

const FOUR_EACH: u8 = 0x90;

/// Slots, each with what a record is refused for that uses it.
const PLACE_1: [u8; 5] = [4, 0, 0, 0, 0];

const PLACE_2: [u8; 5] = [8, 0, 0, 0, 0]; // 13 where there are two places

const SPARE: [u8; 5] = [0, 0, 0, 0, 1]; // 11

const FROM_0: [u8; 5] = [0, 0, 2, 0, 0]; // without limit

const ABOVE_0: [u8; 5] = [2, 0, 0, 0, 2]; // to 1; 14 under plain

const BELOW_1: [u8; 5] = [0, 0, 1, 0, 2]; // from 0; 14 under plain

const ONE_TO_0: [u8; 5] = [0, 0, 4, 0, 0]; // 15

// A slot with its number in the record, from 0 to 7.
type Placed = (usize, [u8; 5]);

fn slot_at(placed: &[Placed], number: usize) -> [u8; 5] {
    placed
        .iter()
        .find(|(at, _)| *at == number)
        .map_or([0; 5], |(_, slot)| *slot)
}

/// Adds a transition whose other slots are zero.
fn add_record(bytes: &mut Vec<u8>, counts: u8, placed: &[Placed]) -> Result<(), AllocError> {
    bytes.push(counts)?;
    for number in 0..8 {
        bytes.extend_from_slice(&slot_at(placed, number))?;
    }
    Ok(())
}

/// The number of the refusal and of the record, if the bytes are refused.
fn refused(bytes: &[u8]) -> Option<(u8, usize)> {
    let fault = check_net(bytes).err()?;
    Some((fault.refusal.number(), fault.at))
}

/// The same for a header and so many equal records of one input each.
fn repeated(heap: Global, header: [u8; 4], count: u8) -> Result<Option<(u8, usize)>, AllocError> {
    let mut bytes = Vec::from_slice(heap, &header)?;
    for _ in 0..count {
        add_record(&mut bytes, ONE_IN, &[(0, PLACE_1)])?;
    }
    Ok(refused(&bytes))
}

/// The same for two records of one input each, under plain kind.
fn pair(heap: Global, first: Placed, second: Placed) -> Result<Option<(u8, usize)>, AllocError> {
    let mut bytes = Vec::from_slice(heap, &[PLAIN, 4, 0, 0])?;
    add_record(&mut bytes, ONE_IN, &[first])?;
    add_record(&mut bytes, ONE_IN, &[second])?;
    Ok(refused(&bytes))
}

#[cfg(test)]
mod tests {
    use super::*;
    use std::process::Abort;
    use std::test::Fail;

    /// One transition under a header of this first byte: the number that it is refused with, if
    /// any.
    fn check_case(
        rt: &impl Abort,
        heap: Global,
        kind: u8,
        counts: u8,
        placed: &[Placed],
        expected: Option<u8>,
    ) -> Result<(), Fail> {
        let mut bytes = Vec::from_slice(heap, &[kind, 2, 0, 0])?;
        add_record(&mut bytes, counts, placed)?;
        assert_eq!(rt; refused(&bytes), expected.map(|number| (number, 1)));
        Ok(())
    }

    #[test]
    fn each_refusal_alone(rt: HostRuntime) -> Result<(), Fail> {
        let heap = rt.alloc();
        assert_eq!(rt; refused(&[]), Some((10, 0)));
        check_case(&rt, heap, PLAIN, ONE_IN, &[(0, PLACE_1)], None)?;
        check_case(&rt, heap, PLAIN, ONE_IN, &[(0, SPARE)], Some(11))?;
        check_case(&rt, heap, PLAIN, 0xa0, &[], Some(12))?;
        check_case(&rt, heap, PLAIN, ONE_IN, &[(0, PLACE_2)], Some(13))?;
        check_case(&rt, heap, PLAIN, ONE_IN, &[(0, ABOVE_0)], Some(14))?;
        check_case(&rt, heap, PLAIN, ONE_IN, &[(0, ONE_TO_0)], Some(15))
    }

    #[test]
    fn missing_bytes_and_bytes_too_many(rt: HostRuntime) -> Result<(), Fail> {
        let heap = rt.alloc();
        assert_eq!(rt; refused(&[PLAIN, 0, 0]), Some((10, 0)));
        assert_eq!(rt; refused(&[PLAIN, 0, 0, 0]), None);
        assert_eq!(rt; refused(&[PLAIN, 0, 0, 0, 0xff]), None);
        assert_eq!(rt; repeated(heap, [PLAIN, 6, 0, 0], 2)?, Some((10, 3)));
        assert_eq!(rt; repeated(heap, [PLAIN, 4, 0, 0], 3)?, None);
        let mut bytes = Vec::from_slice(heap, &[PLAIN, 2, 0, 0])?;
        add_record(&mut bytes, ONE_OUT, &[])?;
        bytes.truncate(44);
        assert_eq!(rt; refused(&bytes), Some((10, 1)));
        bytes.extend_from_slice(&[0, 0xff, 0xff])?;
        assert_eq!(rt; refused(&bytes), None);
        Ok(())
    }

    #[test]
    fn headers(rt: HostRuntime) {
        for kind in [0x00, 0x40, 0x80] {
            assert_eq!(rt; refused(&[kind, 0, 0, 0]), None);
        }
        assert_eq!(rt; refused(&[0xc0, 0, 0, 0]), Some((12, 0)));
        for (b, c, d) in [(1, 0, 0), (0, 1, 0), (0, 0x80, 0), (0, 0, 1), (0, 0, 0x80)] {
            assert_eq!(rt; refused(&[PLAIN, b, c, d]), Some((11, 0)));
            assert_eq!(rt; refused(&[0xc0, b, c, d]), Some((11, 0)));
        }
    }

    #[test]
    fn sixty_four_places_and_transitions(rt: HostRuntime) -> Result<(), Fail> {
        let heap = rt.alloc();
        check_case(&rt, heap, 0x7f, ONE_IN, &[(0, [252, 0, 0, 0, 0])], None)?;
        check_case(&rt, heap, 0x7e, ONE_IN, &[(0, [252, 0, 0, 0, 0])], Some(13))?;
        check_case(&rt, heap, 0x40, ONE_IN, &[(0, PLACE_1)], Some(13))?;
        assert_eq!(rt; repeated(heap, [0x7f, 128, 0, 0], 64)?, None);
        assert_eq!(rt; repeated(heap, [0x7f, 128, 0, 0], 63)?, Some((10, 64)));
        assert_eq!(rt; repeated(heap, [0x7f, 130, 0, 0], 65)?, Some((12, 0)));
        assert_eq!(rt; repeated(heap, [0x7f, 254, 0, 0], 0)?, Some((12, 0)));
        Ok(())
    }

    #[test]
    fn the_lower_number_wins_in_a_slot(rt: HostRuntime) -> Result<(), Fail> {
        let heap = rt.alloc();
        check_case(&rt, heap, PLAIN, ONE_IN, &[(0, [8, 0, 0, 0, 1])], Some(11))?;
        check_case(&rt, heap, PLAIN, ONE_IN, &[(0, [10, 0, 0, 0, 2])], Some(13))?;
        check_case(&rt, heap, PLAIN, ONE_IN, &[(0, [2, 0, 4, 0, 0])], Some(14))?;
        check_case(&rt, heap, PLAIN, 0xb0, &[(0, PLACE_2)], Some(12))?;
        check_case(&rt, heap, PLAIN, 0xa1, &[], Some(11))
    }

    #[test]
    fn the_lower_number_wins_in_a_later_slot(rt: HostRuntime) -> Result<(), Fail> {
        let heap = rt.alloc();
        check_case(
            &rt,
            heap,
            PLAIN,
            FOUR_EACH,
            &[(0, PLACE_2), (7, SPARE)],
            Some(11),
        )?;
        check_case(
            &rt,
            heap,
            PLAIN,
            FOUR_EACH,
            &[(3, BELOW_1), (4, PLACE_2)],
            Some(13),
        )?;
        check_case(
            &rt,
            heap,
            PLAIN,
            FOUR_EACH,
            &[(0, ONE_TO_0), (1, BELOW_1)],
            Some(14),
        )?;
        check_case(
            &rt,
            heap,
            PLAIN,
            FOUR_EACH,
            &[(1, ONE_TO_0), (5, PLACE_2)],
            Some(13),
        )
    }

    #[test]
    fn an_unused_slot_counts_before_a_range(rt: HostRuntime) -> Result<(), Fail> {
        let heap = rt.alloc();
        check_case(
            &rt,
            heap,
            PLAIN,
            ONE_IN,
            &[(0, ONE_TO_0), (1, PLACE_1)],
            Some(11),
        )
    }

    #[test]
    fn the_earlier_record_wins(rt: HostRuntime) -> Result<(), Fail> {
        let heap = rt.alloc();
        assert_eq!(rt; pair(heap, (0, ONE_TO_0), (0, SPARE))?, Some((15, 1)));
        assert_eq!(rt; pair(heap, (0, PLACE_1), (0, SPARE))?, Some((11, 2)));
        assert_eq!(rt; pair(heap, (0, ABOVE_0), (0, PLACE_2))?, Some((14, 1)));
        // before a record that lacks its bytes too
        assert_eq!(rt; repeated(heap, [0xc0, 2, 0, 0], 0)?, Some((12, 0)));
        assert_eq!(rt; repeated(heap, [0x40, 4, 0, 0], 1)?, Some((13, 1)));
        Ok(())
    }

    #[test]
    fn counts_above_four(rt: HostRuntime) -> Result<(), Fail> {
        let heap = rt.alloc();
        check_case(&rt, heap, PLAIN, FOUR_EACH, &[], None)?;
        for counts in [0xa0, 0xc0, 0xe0, 0x14, 0x18, 0x1c] {
            check_case(&rt, heap, PLAIN, counts, &[], Some(12))?;
            check_case(&rt, heap, PLAIN, counts + 1, &[], Some(11))?;
            check_case(&rt, heap, PLAIN, counts, &[(0, SPARE)], Some(11))?;
            check_case(&rt, heap, PLAIN, counts, &[(7, SPARE)], Some(11))?;
        }
        // then no slot of that side is unused, and each of the other is
        check_case(&rt, heap, PLAIN, 0xa0, &[(3, PLACE_2)], Some(12))?;
        check_case(&rt, heap, PLAIN, 0xa0, &[(3, [0, 0, 3, 0, 0])], Some(11))?;
        check_case(&rt, heap, PLAIN, 0xa0, &[(4, PLACE_1)], Some(11))?;
        check_case(&rt, heap, PLAIN, 0x14, &[(7, PLACE_2)], Some(12))?;
        check_case(&rt, heap, PLAIN, 0x14, &[(0, PLACE_1)], Some(11))
    }

    #[test]
    fn every_slot_is_seen(rt: HostRuntime) -> Result<(), Fail> {
        let heap = rt.alloc();
        for at in 0..8 {
            check_case(&rt, heap, PLAIN, FOUR_EACH, &[(at, PLACE_1)], None)?;
            check_case(&rt, heap, PLAIN, FOUR_EACH, &[(at, PLACE_2)], Some(13))?;
            check_case(&rt, heap, PLAIN, NONE, &[(at, PLACE_1)], Some(11))?;
        }
        for (at, expected) in [(2, None), (3, Some(11)), (6, None), (7, Some(11))] {
            check_case(&rt, heap, PLAIN, THREE_EACH, &[(at, PLACE_1)], expected)?;
        }
        check_case(&rt, heap, PLAIN, ONE_IN, &[(4, PLACE_1)], Some(11))?;
        check_case(&rt, heap, PLAIN, ONE_OUT, &[(0, PLACE_1)], Some(11))
    }

    #[test]
    fn unused_fields_are_zero(rt: HostRuntime) -> Result<(), Fail> {
        let heap = rt.alloc();
        check_case(&rt, heap, PLAIN, NONE, &[], None)?;
        check_case(&rt, heap, PLAIN, 0x01, &[], Some(11))?;
        check_case(&rt, heap, PLAIN, 0x02, &[], Some(11))?;
        // the no-limit flag, each mark and the last bit of each end, where the slot is unused
        for slot in [
            FROM_0,
            [2, 0, 0, 0, 0],
            [0, 0, 1, 0, 0],
            [0, 0, 4, 0, 0],
            [0, 0, 0, 0, 2],
        ] {
            check_case(&rt, heap, MARKED, NONE, &[(5, slot)], Some(11))?;
        }
        // the upper mark, and the first and last bit of the upper end, behind a no-limit flag
        check_case(&rt, heap, MARKED, ONE_OUT, &[(4, FROM_0)], None)?;
        for slot in [[0, 0, 3, 0, 0], [0, 0, 2, 128, 0], [0, 0, 2, 0, 2]] {
            check_case(&rt, heap, MARKED, ONE_OUT, &[(4, slot)], Some(11))?;
        }
        Ok(())
    }

    #[test]
    fn marks_need_the_marked_kind(rt: HostRuntime) -> Result<(), Fail> {
        let heap = rt.alloc();
        for slot in [ABOVE_0, BELOW_1, [2, 0, 1, 0, 2], [2, 0, 2, 0, 0]] {
            check_case(&rt, heap, MARKED, ONE_IN, &[(0, slot)], None)?;
            check_case(&rt, heap, PLAIN, ONE_IN, &[(0, slot)], Some(14))?;
            check_case(&rt, heap, 0x01, ONE_OUT, &[(4, slot)], Some(14))?;
        }
        Ok(())
    }

    #[test]
    fn ranges_that_hold_no_age(rt: HostRuntime) -> Result<(), Fail> {
        let heap = rt.alloc();
        // 3 to 3, from 0 to most, 32767 to 32767, 16383 to 16384
        for slot in [
            [0, 0, 12, 0, 6],
            [0, 0, 0, 255, 254],
            [1, 255, 252, 255, 254],
            [0, 255, 252, 128, 0],
        ] {
            check_case(&rt, heap, PLAIN, ONE_IN, &[(0, slot)], None)?;
        }
        // above 3 to 3, 3 to below 3, 32767 to 32766, 16384 to 16383, 64 to 63
        for slot in [
            [2, 0, 12, 0, 6],
            [0, 0, 13, 0, 6],
            [1, 255, 252, 255, 252],
            [1, 0, 0, 127, 254],
            [0, 1, 0, 0, 126],
        ] {
            check_case(&rt, heap, MARKED, ONE_IN, &[(0, slot)], Some(15))?;
        }
        // with no upper limit every lower end does
        check_case(&rt, heap, PLAIN, ONE_IN, &[(0, [1, 255, 254, 0, 0])], None)
    }
}
