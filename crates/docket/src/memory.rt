// Memory that a call is lent: whether it is whole, and a page of the book written.
ghost use Rattle.docket.specs.Dockets.{with_part};
ghost use Rattle.zone_cells.specs.Cells.{in_draft};
ghost use Rattle.zone_cells.specs.Drafts.{draft_zone};
ghost use Rattle.zone_cells.specs.Sizes.{draft_cells, page_cells, page_places};
ghost use Rattle.docket_rules.specs.Worlds.{book_cells, book_places};
ghost use Rattle.docket_rules.specs.Calls.{cell_of, cells_of, page_places_of, with_page};
ghost use Rattle.std.specs.List.{range_with_len};
ghost use Rattle.std.specs.Prelude.{◌≡◌, ◌==◌, ◌&&◌, ◌+◌, ◌/◌, ◌%◌, ◌<◌, ◌≤◌, ℕ, length, map};

use bounds::Bound;
use zone_drafts::bytes::byte;
use zone_drafts::draft::{DRAFT_CELLS, bound_at};
use zone_pages::book::{PAGE_CELLS, PAGE_PLACES};

/// How many cells the book has, of 64 pages.
pub const BOOK_CELLS: usize = 64 * PAGE_CELLS;

/// How many places the book has.
pub const BOOK_PLACES: usize = 64 * PAGE_PLACES;

// Whether the book and the scratch page have the stated lengths.
pub(crate) fn is_whole<B: Bound>(cells: &[B], places: &[u8], scratch: &[B]) -> bool
    ensures { result ≡
        ((length cells.now == book_cells && length places.now == book_places) &&
        length scratch.now == draft_cells) }
{
    cells.len() == BOOK_CELLS && places.len() == BOOK_PLACES && scratch.len() == DRAFT_CELLS
}

// Writes so many items from a start on: each is what the closure answers of its number.
fn write_part<X: Copy, F: Fn(u8) -> X>(items: &mut [X], start: usize, size: u8, item: F)
    requires callable { F.IsAlwaysCallable item }
    requires room { start + size ≤ length items.old }
    ensures { (f : ℕ → X) → ((at : ℕ) (x : X) → at < size → F.post item at x → x ≡ f at) →
        items.new ≡ with_part start size (map f (range_with_len 0 size)) items.old }
{
    for at in 0..size {
        items[start + usize::from(at)] = item(at);
    }
}

// The cell of a page: the draft's, or for absent tokens zero from a point to itself, and else no
// limit.
fn page_cell<B: Bound>(draft: &[B], tokens: u8, at: u8) -> B
    ensures { result ≡
        cell_of B.Bound.kind tokens (in_draft B.Bound.kind draft.now) (at / 9) (at % 9) }
{
    let (j, i) = (at / 9, at % 9);
    if j <= tokens && i <= tokens {
        bound_at(draft, j, i)
    } else if j == i {
        B::zero()
    } else {
        B::no_limit()
    }
}

// Writes the zone of a draft into the page with this number.
pub(crate) fn write_page<B: Bound>(
    cells: &mut [B],
    places: &mut [u8],
    number: u8,
    draft: &[B],
    tokens: &[u8],
)
    requires full { length cells.old ≡ book_cells }
    requires whole { length places.old ≡ book_places }
    requires within { number < 64 }
    requires few { length tokens.now ≤ 8 }
    ensures cells { cells.new ≡
        with_page page_cells number
        (cells_of B.Bound.kind (draft_zone B.Bound.kind tokens.now draft.now)) cells.old }
    ensures places { places.new ≡
        with_page page_places number
        (page_places_of (draft_zone B.Bound.kind tokens.now draft.now)) places.old }
{
    let count = tokens.len() as u8;
    write_part(
        cells,
        PAGE_CELLS * usize::from(number),
        PAGE_CELLS as u8,
        |at| page_cell(draft, count, at),
    );
    write_part(
        places,
        PAGE_PLACES * usize::from(number),
        PAGE_PLACES as u8,
        |at| byte(tokens, usize::from(at)),
    );
}
