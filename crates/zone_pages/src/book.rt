// The zone book: pages of 81 cells, (j,i) of a page at 9 j + i, with eight places each.
ghost use Rattle.std.specs.Prelude.{◌≡◌, ◌*◌, take, drop};
ghost use Rattle.zone_cells.specs.Cells.{in_page, written};
ghost use Rattle.zone_cells.specs.Sizes.{page_cells, page_places};
ghost use Rattle.zone_pages.specs.Books.{page_points};

use bounds::Bound;
use zone_drafts::draft::cell;
use zone_drafts::fill::fill;
use zones::MOST_TOKENS;

/// How many cells a page has: a row and a column for the clock and each of eight tokens.
pub const PAGE_CELLS: usize = 81;

/// How many places a page has, one for each token.
pub const PAGE_PLACES: usize = MOST_TOKENS as usize;

const PAGE_ROW: usize = 9;

/// The memory of all pages. Cells and places are lent, each as one slice for the whole book.
#[derive(Clone, Copy)]
pub struct Book<'a, B> {
    /// 81 for each page.
    pub cells: &'a [B],
    /// Eight for each page.
    pub places: &'a [u8],
}

/// A zone of the book.
#[derive(Clone, Copy)]
pub struct Page<'a, B> {
    /// Its bounds, (j,i) at 9 j + i.
    pub cells: &'a [B],
    /// The place of each of its tokens.
    pub places: &'a [u8],
}

// So many items from a start on; what lies past the end is none.
fn part<X>(items: &[X], start: usize, size: usize) -> &[X]
    ensures { result.now ≡ take size (drop start items.now) }
{
    let later = items.get(start..).unwrap_or(&[]);
    later.get(..size).unwrap_or(later)
}

impl<'a, B: Bound> Book<'a, B> {
    /// The page with this number, from 0, and its first places. What lies past the book's end is
    /// none.
    pub fn page(&self, number: u8, tokens: u8) -> Page<'a, B>
        ensures cells { result.cells.now ≡
            take page_cells (drop (page_cells * number) self.now.cells.now) }
        ensures places { result.places.now ≡
            take tokens (drop (page_places * number) self.now.places.now) }
    {
        let number = usize::from(number);
        Page {
            cells: part(self.cells, PAGE_CELLS * number, PAGE_CELLS),
            places: part(self.places, PAGE_PLACES * number, usize::from(tokens)),
        }
    }
}

impl<B: Bound> Page<'_, B> {
    /// The bound of point j against point i; no limit outside the page.
    pub fn bound(&self, j: u8, i: u8) -> B
        ensures { result ≡ in_page B.Bound.kind self.now.cells.now j i }
    {
        self.at(usize::from(j), usize::from(i))
    }

    // A place outside the page reads as no limit. No slice reaches as far as the largest number, so
    // a place past it is none either way.
    pub(crate) fn at(&self, j: usize, i: usize) -> B
        ensures { result ≡ in_page B.Bound.kind self.now.cells.now j i }
    {
        cell(self.cells, j.saturating_mul(PAGE_ROW).saturating_add(i))
    }

    /// Writes the zone into a draft; one of more than eight tokens is none of the book's, and is
    /// left.
    pub fn load(&self, draft: &mut [B])
        ensures { draft.new ≡ written (in_page B.Bound.kind self.now.cells.now)
            (page_points self.now.places.now) draft.old }
    {
        if self.places.len() <= PAGE_PLACES {
            let points = self.places.len() as u8 + 1;
            fill(draft, points, |j, i| self.bound(j, i));
        }
    }
}
