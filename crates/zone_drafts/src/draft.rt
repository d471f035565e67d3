// A draft: lent cells that hold the bounds of a zone while it is worked on, row by row.
// A place outside the cells reads as no limit, and a write to it is dropped. The calls take the
// cells and the number of points apart, since it is the caller who lends the cells, anew for each
// call.
ghost use Rattle.std.specs.Prelude.{◌≡◌, ◌+◌, ◌*◌, slice_index_or};
ghost use Rattle.zone_cells.specs.Cells.{in_draft, put, lowered, relaxed_row, relaxed_cells};
ghost use Rattle.zone_cells.specs.Cells.{narrowed_cells, picked_cells, added_cells, column_least};
ghost use Rattle.zone_cells.specs.Cells.{delayed_cells};
ghost use Rattle.zone_cells.specs.Sizes.{draft_row};
ghost use Rattle.zone_walks.specs.Walks.{lesser as least_of};

use crate::bytes::byte;
use bounds::{Bound, Range};

/// How many cells a draft has: a row and a column for the clock and each of 12 tokens.
pub const DRAFT_CELLS: usize = 169;

const DRAFT_ROW: usize = 13;

fn index(j: u8, i: u8) -> usize
    ensures { result ≡ draft_row * j + i }
{
    DRAFT_ROW * usize::from(j) + usize::from(i)
}

/// A cell of a zone, or no limit outside it. By a match, which was measured faster than `copied`
/// with `unwrap_or`.
pub fn cell<B: Bound>(cells: &[B], at: usize) -> B
    ensures { result ≡ slice_index_or cells.now at B.Bound.kind.no_limit }
{
    match cells.get(at) {
        Some(bound) => *bound,
        None => B::no_limit(),
    }
}

/// The bound of point j against point i.
pub fn bound_at<B: Bound>(cells: &[B], j: u8, i: u8) -> B
    ensures { result ≡ in_draft B.Bound.kind cells.now j i }
{
    cell(cells, index(j, i))
}

/// Writes the bound of point j against point i.
pub fn put<B: Bound>(cells: &mut [B], j: u8, i: u8, bound: B)
    ensures { cells.new ≡ put j i bound cells.old }
{
    // After a write through `get_mut` of a slice a proof knows no cell, so this tests the place
    // itself.
    let at = index(j, i);
    if at < cells.len() {
        cells[at] = bound;
    }
}

/// The bound that lets less through.
pub fn lesser<B: Bound>(a: B, b: B) -> B
    ensures { result ≡ least_of B.Bound.kind a b }
{
    if a.at_most(b) { a } else { b }
}

/// Lets no more through than the bound given.
pub fn lower<B: Bound>(cells: &mut [B], j: u8, i: u8, bound: B)
    ensures { cells.new ≡ lowered B.Bound.kind j i bound cells.old }
{
    let least = lesser(bound_at(cells, j, i), bound);
    put(cells, j, i, least);
}

/// Narrows a token's two bounds against the clock by a range.
pub fn narrow<B: Bound>(cells: &mut [B], token: u8, range: Range<B>)
    ensures { cells.new ≡ narrowed_cells B.Bound.kind token range cells.old }
{
    lower(cells, token, 0, range.upper);
    lower(cells, 0, token, range.lower);
}

// This and the rounds below read the cells that they write, so a closure over pairs of points would
// be no plainer than the loops.
fn relax_row<B: Bound>(cells: &mut [B], points: u8, pivot: u8, row: u8)
    ensures { cells.new ≡ relaxed_row B.Bound.kind points pivot row cells.old }
{
    let first = bound_at(cells, row, pivot);
    for i in 0..points {
        let way = first.sum(bound_at(cells, pivot, i));
        lower(cells, row, i, way);
    }
}

/// One round of the elimination: every bound, or the way through the pivot where that is less.
pub fn relax<B: Bound>(cells: &mut [B], points: u8, pivot: u8)
    ensures { cells.new ≡ relaxed_cells B.Bound.kind points pivot cells.old }
{
    for row in 0..points {
        if row != pivot {
            relax_row(cells, points, pivot, row);
        }
    }
}

/// Keeps some points alone: their rows and columns close up.
pub fn take_off<B: Bound>(cells: &mut [B], kept: &[u8], points: u8)
    ensures { cells.new ≡ picked_cells B.Bound.kind kept.now points cells.old }
{
    for row in 0..points {
        let from = byte(kept, usize::from(row));
        for i in 0..points {
            let bound = bound_at(cells, from, byte(kept, usize::from(i)));
            put(cells, row, i, bound);
        }
    }
}

/// Adds a token with a range as point n: its way to every other point leads through the clock.
pub fn add_token<B: Bound>(cells: &mut [B], n: u8, range: Range<B>)
    ensures { cells.new ≡ added_cells B.Bound.kind range n cells.old }
{
    for i in 0..n {
        let to = range.upper.sum(bound_at(cells, 0, i));
        let from = bound_at(cells, i, 0).sum(range.lower);
        put(cells, n, i, to);
        put(cells, i, n, from);
    }
    put(cells, n, n, B::zero());
}

fn column_least<B: Bound>(cells: &[B], points: u8, i: u8) -> B
    ensures { result ≡ column_least B.Bound.kind points i cells.now }
{
    (1..points).fold(B::zero(), |least, j| lesser(bound_at(cells, j, i), least))
}

/// The delay predecessor of a normal form: in the clock's row the least of zero and the column.
pub fn delay_back<B: Bound>(cells: &mut [B], points: u8)
    ensures { cells.new ≡ delayed_cells B.Bound.kind points cells.old }
{
    for i in 1..points {
        let least = column_least(cells, points, i);
        put(cells, 0, i, least);
    }
}
