//! Clock rows in lent cells: the bounds of a page's points to the clock and from it.
ghost use Rattle.docket_vouching.specs.Rows.{AllNarrowed, LoweredTo, OneNarrowed, RowsAre};
ghost use Rattle.docket_vouching.specs.Rows.{rows_delayed, rows_in};
ghost use Rattle.nets.specs.Nets.{Every, arcs_of};
ghost use Rattle.nets.specs.declared.side.Side.TheVariants.{Output};
ghost use Rattle.std.specs.Prelude.{◌≡◌, ◌≤◌, ◌<◌, length};
ghost use Rattle.zone_cells.specs.Cells.{in_page};
ghost use Rattle.zone_closed_forms.specs.ClosedForms.{begun, crossed, narrowed_rows};

use bounds::{Bound, Range};
use nets::{NetStore, Side};
use zone_drafts::bytes::byte;
use zone_drafts::draft::{cell, lesser};

/// The clock and eight tokens.
pub(crate) const PAGE_POINTS: usize = 9;

/// The clock and twelve tokens.
pub(crate) const MOST_POINTS: usize = 13;

pub(crate) fn page_bound<B: Bound>(page: &[B], j: usize, k: usize) -> B
    requires row { j ≤ 255 }
    requires column { k ≤ 255 }
    ensures { result ≡ in_page B.Bound.kind page.now j k }
{
    cell(page, PAGE_POINTS * j + k)
}

/// Whether a range leaves the token no age.
pub(crate) fn is_crossed<B: Bound>(up: &[B], low: &[B], token: u8, range: Range<B>) -> bool
    ensures { result ≡
        crossed B.Bound.kind token range (rows_in B.Bound.kind up.now low.now) }
{
    let token = usize::from(token);
    !B::zero().at_most(range.lower.sum(cell(up, token)))
        || !B::zero().at_most(cell(low, token).sum(range.upper))
}

/// Narrows a token by a range.
pub(crate) fn narrow<B: Bound>(page: &[B], token: u8, range: Range<B>, up: &mut [B], low: &mut [B])
    requires token { token ≤ 8 }
    requires up { length up.old ≡ 9 }
    requires low { length low.old ≡ 9 }
    ensures up { length up.new ≡ 9 }
    ensures low { length low.new ≡ 9 }
    ensures rows { RowsAre B.Bound.kind
        (narrowed_rows B.Bound.kind (in_page B.Bound.kind page.now) token range
        (rows_in B.Bound.kind up.old low.old)) up.new low.new }
{
    let token = usize::from(token);
    for k in 0..PAGE_POINTS {
        up[k] = lesser(up[k], page_bound(page, k, token).sum(range.upper));
        low[k] = lesser(low[k], range.lower.sum(page_bound(page, token, k)));
    }
}

/// Narrows the token that an output arc is matched with; false where its range leaves it no age.
fn narrow_by<B: Bound, N: NetStore<B>>(
    store: &N,
    transition: u8,
    matching: &[u8],
    arc: u8,
    page: &[B],
    up: &mut [B],
    low: &mut [B],
) -> bool
    requires arc { arc < length (arcs_of (N.NetStore.net store.now) transition Output) }
    requires matching { arc < length matching.now }
    requires few { arc < 255 }
    requires tokens { Every (λ d. d < 9) matching.now }
    requires up { length up.old ≡ 9 }
    requires low { length low.old ≡ 9 }
    ensures up { length up.new ≡ 9 }
    ensures low { length low.new ≡ 9 }
    ensures rows { OneNarrowed B.Bound.kind page.now
        (arcs_of (N.NetStore.net store.now) transition Output) matching.now arc
        up.old low.old up.new low.new result }
{
    let token = byte(matching, usize::from(arc));
    if token == 0 {
        return true;
    }
    let range = store.range(transition, Side::Output, arc + 1);
    if is_crossed(up, low, token, range) {
        return false;
    }
    narrow(page, token, range, up, low);
    true
}

/// Narrows every matched token; false where the firing is void.
pub(crate) fn narrow_matched<B: Bound, N: NetStore<B>>(
    store: &N,
    transition: u8,
    matching: &[u8],
    page: &[B],
    up: &mut [B],
    low: &mut [B],
) -> bool
    requires matching { length matching.now ≡
        length (arcs_of (N.NetStore.net store.now) transition Output) }
    requires tokens { Every (λ d. d < 9) matching.now }
    requires up { length up.old ≡ 9 }
    requires low { length low.old ≡ 9 }
    ensures up { length up.new ≡ 9 }
    ensures low { length low.new ≡ 9 }
    ensures rows { AllNarrowed B.Bound.kind page.now
        (arcs_of (N.NetStore.net store.now) transition Output) matching.now
        up.old low.old up.new low.new result }
{
    for arc in 0..store.arcs(transition, Side::Output) {
        if !narrow_by(store, transition, matching, arc, page, up, low) {
            return false;
        }
    }
    true
}

/// Begins with the page's own: the clock's column and row.
pub(crate) fn begin<B: Bound>(page: &[B], up: &mut [B], low: &mut [B])
    requires up { length up.old ≡ 9 }
    requires low { length low.old ≡ 9 }
    ensures up { length up.new ≡ 9 }
    ensures low { length low.new ≡ 9 }
    ensures rows { RowsAre B.Bound.kind (begun (in_page B.Bound.kind page.now)) up.new low.new }
{
    for k in 0..PAGE_POINTS {
        up[k] = page_bound(page, k, 0);
        low[k] = page_bound(page, 0, k);
    }
}

/// Lowers a row to a token's bounds where those are less.
fn lower_to<B: Bound>(page: &[B], token: usize, low: &mut [B])
    requires token { token ≤ 8 }
    requires low { length low.old ≡ 9 }
    ensures low { length low.new ≡ 9 }
    ensures rows { LoweredTo B.Bound.kind (in_page B.Bound.kind page.now) token low.old low.new }
{
    for k in 0..PAGE_POINTS {
        low[k] = lesser(page_bound(page, token, k), low[k]);
    }
}

/// The rows of a delay: from the clock the least of zero and of the tokens' bounds.
pub(crate) fn delay<B: Bound>(page: &[B], tokens: u8, up: &mut [B], low: &mut [B])
    requires tokens { tokens ≤ 8 }
    requires up { length up.old ≡ 9 }
    requires low { length low.old ≡ 9 }
    ensures up { length up.new ≡ 9 }
    ensures low { length low.new ≡ 9 }
    ensures rows { RowsAre B.Bound.kind
        (rows_delayed B.Bound.kind (in_page B.Bound.kind page.now) tokens) up.new low.new }
{
    for k in 0..PAGE_POINTS {
        up[k] = page_bound(page, k, 0);
        low[k] = B::zero();
    }
    for token in 1..usize::from(tokens) + 1 {
        lower_to(page, token, low);
    }
}
