//! The points of a page that an item keeps, and the places of all its tokens.
ghost use Rattle.nets.specs.Nets.{arcs_of, numbered};
ghost use Rattle.nets.specs.declared.side.Side.TheVariants.{Input};
ghost use Rattle.std.specs.Prelude.{◌≡◌, ◌≤◌, ◌∷◌, ◌++◌, false, map, length};
ghost use Rattle.zone_cells.specs.Sifted.{sifted};

use arrayvec::ArrayVec;
use bounds::Bound;
use nets::{NetStore, Side};
use zone_drafts::bytes::place_of;
use zone_drafts::tokens::Tokens;
use zone_matchings::{arc_count, is_among};

/// Points of a page, the clock first.
pub type Points = ArrayVec<u8, 9>;

/// The clock, and the tokens that are not matched.
pub(crate) fn staying(tokens: u8, matching: &[u8]) -> Points
    requires { tokens ≤ 8 }
    ensures { result.items ≡ 0 ∷ sifted false matching.now 1 tokens }
{
    let mut points = Points::new();
    points.push(0);
    for token in 1..=tokens {
        if !is_among(token, matching) {
            points.push(token);
        }
    }
    points
}

/// The places of the kept tokens.
fn kept_places(places: &[u8], kept: &[u8]) -> Tokens
    requires { length kept.now ≤ 8 }
    ensures { result.items ≡ map (λ i. numbered places.now i 0) kept.now }
{
    let mut tokens = Tokens::new();
    for point in kept {
        tokens.push(place_of(places, *point));
    }
    tokens
}

/// The places of the kept tokens and, behind them, of the input arcs.
pub(crate) fn all_places<B: Bound, N: NetStore<B>>(
    store: &N,
    transition: u8,
    places: &[u8],
    kept: &[u8],
) -> Tokens
    requires { length kept.now ≤ 8 }
    ensures { result.items ≡ map (λ i. numbered places.now i 0) kept.now ++
        map (λ a. a.place) (arcs_of (N.NetStore.net store.now) transition Input) }
{
    let mut tokens = kept_places(places, kept);
    for arc in 0..arc_count(store, transition, Side::Input) {
        tokens.push(store.place(transition, Side::Input, arc + 1));
    }
    tokens
}
