//! A row of the bounds asked for, held as a whole against that of the page that vouches: every
//! entry by the way by the clock or by the item's page, with no branch from entry to entry.
//! A row that fits is settled; of one that does not nothing is said here.
ghost use Rattle.docket_vouching.specs.Asked.{rows_within};
ghost use Rattle.docket_vouching.specs.Fits.{AddedRowFits, ClockRowFits, KeptAt, KeptRowFits};
ghost use Rattle.docket_vouching.specs.Fits.{PointsAt, TokenRowFits};
ghost use Rattle.nets.specs.Nets.{Every};
ghost use Rattle.std.specs.Prelude.{◌≡◌, ◌≤◌, ◌<◌, ◌↔◌, IsTrue, length};
ghost use Rattle.zone_cells.specs.Cells.{in_page};
ghost use Rattle.zones.specs.Vouching.{partner};

use crate::rows::{MOST_POINTS, PAGE_POINTS};
use bounds::Bound;
use zone_drafts::bytes::byte;
use zone_matchings::numbered;

/// For each point of the page that vouches, the item's point that it is paired with; 0 of none.
pub(crate) fn points_of(pairing: &[u8]) -> [u8; PAGE_POINTS]
    ensures { PointsAt pairing.now result }
{
    let mut points = [0; PAGE_POINTS];
    for i in 0..PAGE_POINTS {
        points[i] = numbered_point(pairing, i);
    }
    points
}

fn numbered_point(pairing: &[u8], i: usize) -> u8
    ensures { result ≡ partner pairing.now i }
{
    numbered(pairing, i, 0)
}

/// The point of the item's page that each of these is; 0 of a token that is added.
pub(crate) fn kept_of(kept: &[u8], points: &[u8; PAGE_POINTS]) -> [u8; PAGE_POINTS]
    ensures { KeptAt kept.now points.now result }
{
    let mut own = [0; PAGE_POINTS];
    for i in 0..PAGE_POINTS {
        own[i] = byte(kept, usize::from(points[i]));
    }
    own
}

/// Whether all are below a limit.
pub(crate) fn are_below(bytes: &[u8; PAGE_POINTS], limit: u8) -> bool
    ensures { IsTrue result ↔ Every (λ d. d < limit) bytes.now }
{
    bytes.iter().all(|byte| *byte < limit)
}

/// The clock's row.
pub(crate) fn clock_row_fits<B: Bound>(page: &[B], rows: &[B], points: &[u8; PAGE_POINTS]) -> bool
    requires page { length page.now ≡ 81 }
    requires rows { 26 ≤ length rows.now }
    requires points { Every (λ d. d < 13) points.now }
    ensures { IsTrue result → ClockRowFits B.Bound.kind (in_page B.Bound.kind page.now)
        (rows_within B.Bound.kind rows.now) points.now }
{
    let mut fits = true;
    for i in 1..PAGE_POINTS {
        fits &= rows[MOST_POINTS + usize::from(points[i])].at_most(page[i]);
    }
    fits
}

/// The row of a token that is added: the way by the clock alone.
fn added_row_fits<B: Bound>(page: &[B], rows: &[B], points: &[u8; PAGE_POINTS], j: usize) -> bool
    requires page { length page.now ≡ 81 }
    requires rows { 26 ≤ length rows.now }
    requires points { Every (λ d. d < 13) points.now }
    requires row { j < 9 }
    ensures { IsTrue result → AddedRowFits B.Bound.kind (in_page B.Bound.kind page.now)
        (rows_within B.Bound.kind rows.now) points.now j }
{
    let up = rows[usize::from(points[j])];
    let mut fits = up.at_most(page[PAGE_POINTS * j]);
    for i in 1..PAGE_POINTS {
        let way = up.sum(rows[MOST_POINTS + usize::from(points[i])]);
        fits &= (i == j) | way.at_most(page[PAGE_POINTS * j + i]);
    }
    fits
}

/// The row of a token that is kept.
fn kept_row_fits<B: Bound>(
    page: &[B],
    own: &[B],
    rows: &[B],
    points: &[u8; PAGE_POINTS],
    kept: &[u8; PAGE_POINTS],
    j: usize,
) -> bool
    requires page { length page.now ≡ 81 }
    requires own { length own.now ≡ 81 }
    requires rows { 26 ≤ length rows.now }
    requires points { Every (λ d. d < 13) points.now }
    requires kept { Every (λ d. d < 9) kept.now }
    requires row { j < 9 }
    ensures { IsTrue result → KeptRowFits B.Bound.kind (in_page B.Bound.kind page.now)
        (in_page B.Bound.kind own.now) (rows_within B.Bound.kind rows.now) points.now kept.now j }
{
    let up = rows[usize::from(points[j])];
    let at = usize::from(kept[j]);
    let mut fits = up.at_most(page[PAGE_POINTS * j]);
    for i in 1..PAGE_POINTS {
        let bound = page[PAGE_POINTS * j + i];
        let way = up.sum(rows[MOST_POINTS + usize::from(points[i])]);
        let to = usize::from(kept[i]);
        fits &= way.at_most(bound) | ((to != 0) & own[PAGE_POINTS * at + to].at_most(bound));
    }
    fits
}

/// A token's row. Two loops, each of one shape.
pub(crate) fn token_row_fits<B: Bound>(
    page: &[B],
    own: &[B],
    rows: &[B],
    points: &[u8; PAGE_POINTS],
    kept: &[u8; PAGE_POINTS],
    j: usize,
) -> bool
    requires page { length page.now ≡ 81 }
    requires own { length own.now ≡ 81 }
    requires rows { 26 ≤ length rows.now }
    requires points { Every (λ d. d < 13) points.now }
    requires kept { Every (λ d. d < 9) kept.now }
    requires row { j < 9 }
    ensures { IsTrue result → TokenRowFits B.Bound.kind (in_page B.Bound.kind page.now)
        (in_page B.Bound.kind own.now) (rows_within B.Bound.kind rows.now) points.now kept.now j }
{
    if kept[j] == 0 {
        added_row_fits(page, rows, points, j)
    } else {
        kept_row_fits(page, own, rows, points, kept, j)
    }
}
