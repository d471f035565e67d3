// Whether a token of a zone can be paired with a token of an initial marking.
ghost use Rattle.zone_cells.specs.Cells.{in_draft};
ghost use Rattle.zone_markings.specs.Initial.{marking_of, clock};
ghost use Rattle.zone_markings.specs.Pairings.{allows_all, number_fits, search_of};
ghost use Rattle.nets.specs.Nets.{numbered};
ghost use Rattle.std.specs.Prelude.{◌≡◌, ◌≤◌, ◌+◌, length};

use arrayvec::ArrayVec;
use bounds::Bound;
use docket_records::token::InitialToken;
use zone_drafts::draft::bound_at;
use zone_matchings::{is_among, numbered};

/// The tokens of an initial marking, numbered from 1.
pub type InitialTokens = ArrayVec<InitialToken, 8>;

// The clock, 0, and the number of the token that each token of the zone so far is paired with.
pub(crate) type Chosen = ArrayVec<u8, 9>;

// The clock is at age 0. No place is asked of it, nor of a number past the last.
const CLOCK: InitialToken = InitialToken { place: 0, age: 0 };

// An initial marking, and the bounds of a zone whose tokens are to be paired with its tokens.
#[derive(Clone, Copy)]
pub(crate) struct Pairing<'a, B> {
    pub(crate) initial: &'a InitialTokens,
    pub(crate) cells: &'a [B],
}

impl<B: Bound> Pairing<'_, B> {
    // One past the last token: numbers run to an end, since an `any` over `1..=` has no law to
    // prove it by.
    pub(crate) fn end(&self) -> u8
        ensures is { result ≡ length self.now.initial.now.items + 1 }
        ensures small { result ≤ 9 }
    {
        self.initial.len() as u8 + 1
    }

    // The token with this number, or for 0 the clock.
    fn token(&self, number: u8) -> InitialToken
        ensures { result ≡ numbered self.now.initial.now.items number clock }
    {
        numbered(self.initial, usize::from(number), CLOCK)
    }

    // Whether the bound of two points of the zone allows the difference of the ages of these
    // numbers.
    fn allows(&self, j: u8, i: u8, number: u8, other: u8) -> bool
        ensures { result ≡ (search_of B.Bound.kind self.now.cells.now
            self.now.initial.now.items).allows j i number other }
    {
        let age = i64::from(self.token(number).age);
        let less = i64::from(self.token(other).age);
        bound_at(self.cells, j, i).allows(age - less)
    }

    // Whether the bounds between the next token of the zone and each point before it, both ways,
    // allow the ages of their numbers.
    fn allows_all(&self, chosen: &Chosen, number: u8) -> bool
        ensures { result ≡ allows_all
            (search_of B.Bound.kind self.now.cells.now self.now.initial.now.items)
            chosen.now.items number }
    {
        let next = chosen.len() as u8;
        (0..next).zip(chosen.as_slice()).all(|(point, other)| {
            self.allows(next, point, number, *other) && self.allows(point, next, *other, number)
        })
    }

    // Whether the next token of the zone, in this place, can be paired with the number, after those
    // that have the chosen ones.
    pub(crate) fn number_fits(&self, chosen: &Chosen, place: u8, number: u8) -> bool
        ensures { result ≡ number_fits
            (search_of B.Bound.kind self.now.cells.now self.now.initial.now.items)
            chosen.now.items place number }
    {
        !is_among(number, chosen)
            && self.token(number).place == place
            && self.allows_all(chosen, number)
    }
}
