//! The rows of an item's points: those of the points that are kept, and behind them the ranges of
//! the input arcs.
ghost use Rattle.docket_vouching.specs.Own.{AddedBehind, KeptRow, SpreadOver};
ghost use Rattle.docket_vouching.specs.Rows.{rows_in};
ghost use Rattle.nets.specs.Nets.{arcs_of};
ghost use Rattle.nets.specs.declared.side.Side.TheVariants.{Input};
ghost use Rattle.std.specs.Prelude.{◌≡◌, ◌+◌, ◌≤◌, ◌<◌, length};

use bounds::Bound;
use nets::{NetStore, Side};
use zone_drafts::draft::cell;
use zone_matchings::arc_count;

/// The bounds of the kept points, in their order.
fn keep<B: Bound>(kept: &[u8], from: &[B], to: &mut [B])
    requires kept { length kept.now ≤ 9 }
    requires to { length to.old ≡ 13 }
    ensures to { length to.new ≡ 13 }
    ensures kept { KeptRow B.Bound.kind kept.now from.now to.new }
{
    for j in 0..kept.len() {
        to[j] = cell(from, usize::from(kept[j]));
    }
}

/// Behind so many points the ranges of the input arcs.
fn add<B: Bound, N: NetStore<B>>(
    store: &N,
    transition: u8,
    first: usize,
    up: &mut [B],
    low: &mut [B],
)
    requires first { first ≤ 9 }
    requires up { length up.old ≡ 13 }
    requires low { length low.old ≡ 13 }
    ensures up { length up.new ≡ 13 }
    ensures low { length low.new ≡ 13 }
    ensures added { AddedBehind B.Bound.kind
        (arcs_of (N.NetStore.net store.now) transition Input) first
        (rows_in B.Bound.kind up.old low.old) (rows_in B.Bound.kind up.new low.new) }
{
    for arc in 0..arc_count(store, transition, Side::Input) {
        let range = store.range(transition, Side::Input, arc + 1);
        up[first + usize::from(arc)] = range.upper;
        low[first + usize::from(arc)] = range.lower;
    }
}

/// Spreads the rows of a page's points over those of an item's.
pub(crate) fn spread_rows<B: Bound, N: NetStore<B>>(
    store: &N,
    transition: u8,
    kept: &[u8],
    page_up: &[B],
    page_low: &[B],
    up: &mut [B],
    low: &mut [B],
)
    requires kept { length kept.now ≤ 9 }
    requires up { length up.old ≡ 13 }
    requires low { length low.old ≡ 13 }
    ensures up { length up.new ≡ 13 }
    ensures low { length low.new ≡ 13 }
    ensures rows { SpreadOver B.Bound.kind kept.now
        (arcs_of (N.NetStore.net store.now) transition Input)
        page_up.now page_low.now up.new low.new }
{
    keep(kept, page_up, up);
    keep(kept, page_low, low);
    add(store, transition, kept.len(), up, low);
}
