// Matchings of a transition's output arcs with the tokens of a zone.
ghost use Rattle.std.specs.Prelude.{◌≡◌, ◌≤◌, map, length};
ghost use Rattle.zone_matchings.specs.Next.{Next};
ghost use Rattle.nets.specs.Nets.{arcs_of};
ghost use Rattle.nets.specs.declared.side.Side.TheVariants.{Output};
ghost use Rattle.zones.specs.Predecessors.{is_matching};

use crate::numerals::digits;
use crate::outputs::Outputs;
use arrayvec::ArrayVec;
use bounds::Bound;
use nets::{NetStore, Side};

/// How many arcs the transition has on the side.
pub fn arc_count<B: Bound, N: NetStore<B>>(store: &N, transition: u8, side: Side) -> u8
    ensures is { result ≡ length (arcs_of (N.NetStore.net store.now) transition side) }
    ensures few { result ≤ 4 }
{
    store.keeps_limits();
    store.arcs(transition, side)
}

impl<'a> Outputs<'a> {
    // Those of a transition, with tokens in these places. Pushed one by one: `collect` wants an
    // allocator, which fixed memory has not.
    fn of<B: Bound, N: NetStore<B>>(store: &N, transition: u8, tokens: &'a [u8]) -> Outputs<'a>
        ensures are { result.arcs.items ≡ map (λ a. a.place)
            (arcs_of (N.NetStore.net store.now) transition Output) }
        ensures few { length (arcs_of (N.NetStore.net store.now) transition Output) ≤ 4 }
        ensures tokens { result.tokens.now ≡ tokens.now }
    {
        let mut arcs = ArrayVec::new();
        for arc in 1..=arc_count(store, transition, Side::Output) {
            arcs.push(store.place(transition, Side::Output, arc));
        }
        Outputs { arcs, tokens }
    }
}

/// Whether the number says a matching with tokens in these places.
pub fn is_matching<B: Bound, N: NetStore<B>>(
    store: &N,
    transition: u8,
    places: &[u8],
    matching: u16,
) -> bool
    ensures { result ≡ is_matching places.now
        (arcs_of (N.NetStore.net store.now) transition Output) matching }
{
    Outputs::of(store, transition, places).count_fitting(&digits(matching)) == 4
}

/// The next matching above a number, which need not be one.
pub fn next_matching<B: Bound, N: NetStore<B>>(
    store: &N,
    transition: u8,
    places: &[u8],
    after: u16,
) -> Option<u16>
    ensures { Next (is_matching places.now (arcs_of (N.NetStore.net store.now) transition Output))
        after result }
{
    Outputs::of(store, transition, places).next(after)
}
