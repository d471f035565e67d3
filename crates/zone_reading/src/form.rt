// A record's zone brought to normal form in a draft, and its tokens.
ghost use Rattle.std.specs.Prelude.{◌≡◌, ◌+◌, ◌≤◌, is_ok, map, length, take};
ghost use Rattle.zone_cells.specs.Loading.{DraftFormedOr, nine_points, zone_eliminated};
ghost use Rattle.zone_cells.specs.Sizes.{draft_cells};
ghost use Rattle.zone_cells.specs.Settling.{Settles};
ghost use Rattle.docket_records.specs.ZoneRecords.{bound_at, tokens_of, place_at, zone_of};
ghost use Rattle.std.specs.List.{range_with_len};
ghost use Rattle.zone_walks.specs.Walks.{counted};

use bounds::Bound;
use docket_records::zone::ZoneRecord;
use zone_drafts::draft::lesser;
use zone_drafts::fill::fill;
use zone_drafts::settle::{Inconsistent, settle};
use zone_drafts::tokens::Tokens;

// The clock and eight tokens; settling is lent those that a record has.
const POINTS: [u8; 9] = [0, 1, 2, 3, 4, 5, 6, 7, 8];

// A record that passed its tests.
#[derive(Clone, Copy)]
pub(crate) struct TestedRecord<'a> {
    pub(crate) record: ZoneRecord<'a>,
    ghost few: { tokens_of record.bytes.now ≤ 8 },
}

// Nothing is known of a record's bounds, so every point is a pivot.
fn settle_all<B: Bound>(cells: &mut [B], tokens: u8) -> Result<(), Inconsistent>
    requires { tokens ≤ 8 }
    ensures { Settles B.Bound.kind (tokens + 1) (take (tokens + 1) nine_points) cells.old cells.new
        (is_ok result) }
{
    settle(cells, tokens + 1, &POINTS[..=usize::from(tokens)])
}

impl<'a> TestedRecord<'a> {
    // A bound as it counts: no age is below zero, so a bound of the clock's row above zero counts
    // as zero.
    fn counted_bound<B: Bound>(&self, j: u8, i: u8) -> B
        ensures { result ≡ counted B.Bound.kind
            (bound_at B.Bound.kind self.now.record.bytes.now) j i }
    {
        if j == i {
            return B::zero();
        }
        let bound = self.record.bound(j, i);
        if j == 0 {
            lesser(bound, B::zero())
        } else {
            bound
        }
    }

    pub(crate) fn form<B: Bound>(&self, cells: &mut [B]) -> Result<(), Inconsistent>
        ensures kept { length cells.new ≡ length cells.old }
        ensures run { (cells.new, is_ok result) ≡ zone_eliminated B.Bound.kind
            (zone_of B.Bound.kind self.now.record.bytes.now) cells.old }
        ensures formed { length cells.old ≡ draft_cells →
            DraftFormedOr B.Bound.kind (zone_of B.Bound.kind self.now.record.bytes.now) cells.new
            (is_ok result) }
    {
        let tokens = self.record.tokens();
        fill(cells, tokens + 1, |j, i| self.counted_bound(j, i));
        settle_all(cells, tokens)
    }

    // Pushed one by one: `collect` wants an allocator, which fixed memory has not.
    #[tactic(auto, using(crate::proofs::Places::place_listed))]
    pub(crate) fn places(&self) -> Tokens
        ensures { result.items ≡ map (place_at self.now.record.bytes.now)
            (range_with_len 1 (tokens_of self.now.record.bytes.now)) }
    {
        let mut places = Tokens::new();
        for token in 1..=self.record.tokens() {
            places.push(self.record.place(token));
        }
        places
    }
}
