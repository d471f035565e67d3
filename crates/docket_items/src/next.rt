// The item that is due after another: the next matching, else the next transition, else the next
// zone.
ghost use Rattle.std.specs.Prelude.{◌≡◌, ℕ, List};
ghost use Rattle.docket_dues.specs.Dues.{Leads};
ghost use Rattle.docket_items.specs.Next.{
  Follows,
  LaterMatching,
  Lists,
  later_transition,
  later_zone,
};

use bounds::Bound;
use docket_dues::Item;
use nets::NetStore;
use zone_matchings::next_matching;

fn later_matching<B: Bound, N: NetStore<B>>(store: &N, places: &[u8], item: Item) -> Option<Item>
    ensures { LaterMatching (N.NetStore.net store.now) places.now item result }
{
    if item.zone == 0 || item.transition == 0 {
        return None;
    }
    let matching = next_matching(store, item.transition, places, item.matching)?;
    Some(Item { matching, ..item })
}

// The first matching of every transition is 0.
fn later_transition<B: Bound, N: NetStore<B>>(store: &N, item: Item) -> Option<Item>
    ensures { result ≡ later_transition (N.NetStore.net store.now) item }
{
    (item.zone != 0 && item.transition < store.transitions()).then(|| Item {
        transition: item.transition + 1,
        matching: 0,
        ..item
    })
}

fn later_zone(zones: u8, item: Item) -> Option<Item>
    ensures { result ≡ later_zone zones item }
{
    (item.zone < zones).then(|| Item {
        zone: item.zone + 1,
        transition: 0,
        matching: 0,
    })
}

/// The item after this one, which need not be due itself. The places are those of its zone; the
/// target's do not matter.
pub fn next_due<B: Bound, N: NetStore<B>>(
    store: &N,
    zones: u8,
    places: &[u8],
    item: Item,
) -> Option<Item>
    ensures follows { Follows (N.NetStore.net store.now) zones places.now item result }
    ensures leads { (listed : List (List ℕ)) → Lists listed zones item.zone places.now →
        Leads (N.NetStore.net store.now) listed item result }
{
    store.keeps_limits();
    later_matching(store, places, item)
        .or_else(|| later_transition(store, item))
        .or_else(|| later_zone(zones, item))
}
