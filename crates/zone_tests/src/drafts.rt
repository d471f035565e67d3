// Drafts of records made by hand, and what they hold.
use bounds::{Bound, PlainBound, bound_of};
use std::alloc::Global;
use std::process::Abort;
use std::test::Fail;
use test_records::zone_bytes::{Listed, record};
use zone_drafts::draft::{DRAFT_CELLS, bound_at};
use zone_reading::read_zone;

pub type Draft = [PlainBound; DRAFT_CELLS];

pub fn number(n: i32) -> PlainBound {
    bound_of(n, false)
}

/// The normal form of a record under a net of three places.
pub fn draft(heap: Global, header: &[u8], listed: &[Listed]) -> Result<Draft, Fail> {
    let mut cells = [PlainBound::no_limit(); DRAFT_CELLS];
    read_zone(&record(heap, header, listed)?, 3, &mut cells)?;
    Ok(cells)
}

pub fn check_bounds(rt: &impl Abort, cells: &[PlainBound], expected: &[(u8, u8, i32)]) {
    for (j, i, n) in expected {
        assert_eq!(rt; bound_at(cells, *j, *i), number(*n));
    }
}
