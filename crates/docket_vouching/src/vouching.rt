//! Whether a page's zone vouches for the zone that an item asks for, and what stands against it.
ghost use Rattle.docket_vouching.specs.Asked.{shown, zone_on_page};
ghost use Rattle.std.specs.Prelude.{◌≡◌, false, IsTrue, length};
ghost use Rattle.zone_cells.specs.Cells.{in_page};
ghost use Rattle.zone_pages.specs.Comparison.{bound_exceeds, exceeds, exceeds_in_row};
ghost use Rattle.zone_pages.specs.Comparison.{partner_taken, partner_unsound, partners_unsound};
ghost use Rattle.zone_pages.specs.Comparison.{places_differ};
ghost use Rattle.zone_pages.specs.Objections.{Means, objection_of};
ghost use Rattle.zones.specs.Vouching.{partner};

use crate::asked::AskedZone;
use crate::fits::{are_below, clock_row_fits, kept_of, points_of, token_row_fits};
use crate::rows::{MOST_POINTS, PAGE_POINTS};
use bounds::Bound;
use zone_drafts::bytes::byte;
use zone_drafts::draft::cell;
use zone_matchings::numbered;
use zone_pages::book::PAGE_CELLS;
use zone_pages::{Objection, Page};

/// That a page's zone vouches for the zone that an item asks for.
#[derive(Clone, Copy)]
pub struct Vouching<'a, B> {
    /// The zone that vouches.
    pub page: Page<'a, B>,
    /// The zone that is vouched for.
    pub asked: AskedZone<'a, B>,
    /// A token of `asked` for each token of the page.
    pub pairing: &'a [u8],
}

impl<B: Bound> Vouching<'_, B> {
    // The partner of a point; the clock is its own.
    fn partner(&self, point: usize) -> u8
        ensures { result ≡ partner self.now.pairing.now point }
    {
        numbered(self.pairing, point, 0)
    }

    // Whether an earlier token has the partner of token k. Tokens are counted from 0 here.
    fn is_taken(&self, k: usize) -> bool
        ensures { result ≡ partner_taken self.now.pairing.now k }
    {
        let partner = byte(self.pairing, k);
        self.pairing
            .iter()
            .take(k)
            .any(|earlier| *earlier == partner)
    }

    // Whether the partner of token k is no token of the item, or is taken.
    fn is_unsound(&self, k: usize) -> bool
        ensures { result ≡
            partner_unsound (length (shown B.Bound.kind self.now.asked).places)
            self.now.pairing.now k }
    {
        let partner = usize::from(byte(self.pairing, k));
        !(1..=self.asked.tokens()).contains(&partner) || self.is_taken(k)
    }

    // By number here and below, since each test takes the number of a token or a point.
    fn lacks_partners(&self) -> bool
        ensures { result ≡ partners_unsound self.now.page.places.now
            (shown B.Bound.kind self.now.asked).places self.now.pairing.now }
    {
        self.pairing.len() != self.page.places.len()
            || (0..self.pairing.len()).any(|k| self.is_unsound(k))
    }

    // Not by `zip`, since the pairing and the page's places may differ in length.
    fn places_differ(&self) -> bool
        ensures { result ≡ places_differ self.now.page.places.now
            (shown B.Bound.kind self.now.asked).places self.now.pairing.now }
    {
        (0..self.pairing.len()).any(|k| {
            self.asked.place(byte(self.pairing, k)) != byte(self.page.places, k)
        })
    }

    // Whether the bound asked for between the partners of two points is larger than the page's.
    fn exceeds(&self, j: usize, i: usize) -> bool
        ensures { result ≡ exceeds B.Bound.kind (in_page B.Bound.kind self.now.page.cells.now)
            (shown B.Bound.kind self.now.asked).bound self.now.pairing.now j i }
    {
        let of_item = self.asked.bound(self.partner(j), self.partner(i));
        let of_page = cell(
            self.page.cells,
            j.saturating_mul(PAGE_POINTS).saturating_add(i),
        );
        j != i && !of_item.at_most(of_page)
    }

    fn row_exceeds(&self, j: usize) -> bool
        ensures { result ≡
            exceeds_in_row B.Bound.kind (in_page B.Bound.kind self.now.page.cells.now)
            (shown B.Bound.kind self.now.asked).bound self.now.pairing.now j }
    {
        (0..self.pairing.len() + 1).any(|i| self.exceeds(j, i))
    }

    // Whether each row fits as a whole. Nothing is said where one does not, or where memory is not
    // as long as a docket's.
    fn all_fit(&self) -> bool
        requires { partners_unsound self.now.page.places.now
            (shown B.Bound.kind self.now.asked).places self.now.pairing.now ≡ false }
        ensures { IsTrue result →
            bound_exceeds B.Bound.kind (in_page B.Bound.kind self.now.page.cells.now)
            (shown B.Bound.kind self.now.asked).bound self.now.pairing.now ≡ false }
    {
        let (page, own, rows) = (self.page.cells, self.asked.page, self.asked.rows);
        if page.len() != PAGE_CELLS || own.len() != PAGE_CELLS || rows.len() < 2 * MOST_POINTS {
            return false;
        }
        let points = points_of(self.pairing);
        let kept = kept_of(&self.asked.parts.kept, &points);
        if self.pairing.len() >= PAGE_POINTS
            || !are_below(&points, MOST_POINTS as u8)
            || !are_below(&kept, PAGE_POINTS as u8)
        {
            return false;
        }
        if !clock_row_fits(page, rows, &points) {
            return false;
        }
        for j in 1..self.pairing.len() + 1 {
            if !token_row_fits(page, own, rows, &points, &kept, j) {
                return false;
            }
        }
        true
    }

    // An entry is looked for only where a row does not fit.
    fn some_exceeds(&self) -> bool
        requires { partners_unsound self.now.page.places.now
            (shown B.Bound.kind self.now.asked).places self.now.pairing.now ≡ false }
        ensures { result ≡ bound_exceeds B.Bound.kind (in_page B.Bound.kind self.now.page.cells.now)
            (shown B.Bound.kind self.now.asked).bound self.now.pairing.now }
    {
        !self.all_fit() && (0..self.pairing.len() + 1).any(|j| self.row_exceeds(j))
    }

    /// What stands against it, the lowest number first.
    pub fn check(&self) -> Result<(), Objection>
        ensures is { result ≡ objection_of B.Bound.kind (zone_on_page B.Bound.kind self.now.page)
            (shown B.Bound.kind self.now.asked) self.now.pairing.now }
        ensures means { Means B.Bound.kind (zone_on_page B.Bound.kind self.now.page)
            (shown B.Bound.kind self.now.asked) self.now.pairing.now result }
    {
        if self.lacks_partners() {
            Err(Objection::Partner)
        } else if self.places_differ() {
            Err(Objection::Place)
        } else if self.some_exceeds() {
            Err(Objection::Bound)
        } else {
            Ok(())
        }
    }
}
