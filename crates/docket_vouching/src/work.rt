//! Works out the zone that an item asks for.
ghost use Rattle.docket_vouching.specs.Asked.{OwnIs, PageDigits, WorkedIs, WorksIn, WorksOut};
ghost use Rattle.docket_vouching.specs.Asked.{delayed_kept, fired_over, replaced_zone};
ghost use Rattle.docket_vouching.specs.Asked.{whole_zone, zone_on_page};
ghost use Rattle.docket_vouching.specs.Means.{MeansItem};
ghost use Rattle.nets.specs.Nets.{Every, arcs_of};
ghost use Rattle.nets.specs.declared.side.Side.TheVariants.{Output};
ghost use Rattle.std.specs.Prelude.{◌≡◌, ◌≤◌, ◌<◌, ◌↔◌, IsTrue, length};

use crate::own::spread_rows;
use crate::points::{Points, all_places, staying};
use crate::rows::{MOST_POINTS, PAGE_POINTS, begin, delay, narrow_matched};
use bounds::Bound;
use docket_dues::Item;
use nets::{NetStore, Side};
use zone_drafts::tokens::Tokens;
use zone_matchings::{arc_count, digits};
use zone_pages::Page;
use zones::MOST_TOKENS;

// Two rows of the zone's points and two of the page's.
const ROWS_CELLS: usize = 2 * MOST_POINTS + 2 * PAGE_POINTS;

/// What an asked zone is made of besides its page and rows.
#[derive(Drop)]
pub struct Parts {
    /// The page's points that it keeps, the clock first.
    pub kept: Points,
    /// The place of each of its tokens.
    pub tokens: Tokens,
}

/// Takes the matched tokens off and adds those of the input arcs.
fn replace<B: Bound, N: NetStore<B>>(
    store: &N,
    transition: u8,
    matching: &[u8],
    page: &Page<'_, B>,
    page_up: &[B],
    page_low: &[B],
    up: &mut [B],
    low: &mut [B],
) -> Parts
    requires few { length page.now.places.now ≤ 8 }
    requires up { length up.old ≡ 13 }
    requires low { length low.old ≡ 13 }
    ensures up { length up.new ≡ 13 }
    ensures low { length low.new ≡ 13 }
    ensures zone { OwnIs B.Bound.kind page.now up.new low.new
        (replaced_zone B.Bound.kind (N.NetStore.net store.now) transition matching.now page.now
        page_up.now page_low.now) result }
{
    let kept = staying(page.places.len() as u8, matching);
    spread_rows(store, transition, &kept, page_up, page_low, up, low);
    let tokens = all_places(store, transition, page.places, &kept[1..]);
    Parts { kept, tokens }
}

/// The page's own zone.
fn whole<B: Bound, N: NetStore<B>>(
    store: &N,
    page: &Page<'_, B>,
    page_up: &mut [B],
    page_low: &mut [B],
    up: &mut [B],
    low: &mut [B],
) -> Parts
    requires few { length page.now.places.now ≤ 8 }
    requires page_up { length page_up.old ≡ 9 }
    requires page_low { length page_low.old ≡ 9 }
    requires up { length up.old ≡ 13 }
    requires low { length low.old ≡ 13 }
    ensures up { length up.new ≡ 13 }
    ensures low { length low.new ≡ 13 }
    ensures page_up { length page_up.new ≡ 9 }
    ensures page_low { length page_low.new ≡ 9 }
    ensures zone { OwnIs B.Bound.kind page.now up.new low.new
        (whole_zone B.Bound.kind (zone_on_page B.Bound.kind page.now)) result }
{
    begin(page.cells, page_up, page_low);
    replace(store, 0, &[], page, page_up, page_low, up, low)
}

/// The zone before a delay.
fn delayed<B: Bound, N: NetStore<B>>(
    store: &N,
    page: &Page<'_, B>,
    page_up: &mut [B],
    page_low: &mut [B],
    up: &mut [B],
    low: &mut [B],
) -> Parts
    requires few { length page.now.places.now ≤ 8 }
    requires page_up { length page_up.old ≡ 9 }
    requires page_low { length page_low.old ≡ 9 }
    requires up { length up.old ≡ 13 }
    requires low { length low.old ≡ 13 }
    ensures up { length up.new ≡ 13 }
    ensures low { length low.new ≡ 13 }
    ensures page_up { length page_up.new ≡ 9 }
    ensures page_low { length page_low.new ≡ 9 }
    ensures zone { OwnIs B.Bound.kind page.now up.new low.new
        (delayed_kept B.Bound.kind (zone_on_page B.Bound.kind page.now)) result }
{
    delay(page.cells, page.places.len() as u8, page_up, page_low);
    replace(store, 0, &[], page, page_up, page_low, up, low)
}

/// The zone before a firing, or none where it is void.
fn fired<B: Bound, N: NetStore<B>>(
    store: &N,
    transition: u8,
    matching: &[u8],
    page: &Page<'_, B>,
    page_up: &mut [B],
    page_low: &mut [B],
    up: &mut [B],
    low: &mut [B],
) -> Option<Parts>
    requires few { length page.now.places.now ≤ 8 }
    requires matching { length matching.now ≡
        length (arcs_of (N.NetStore.net store.now) transition Output) }
    requires digits { Every (λ d. d < 9) matching.now }
    requires page_up { length page_up.old ≡ 9 }
    requires page_low { length page_low.old ≡ 9 }
    requires up { length up.old ≡ 13 }
    requires low { length low.old ≡ 13 }
    ensures up { length up.new ≡ 13 }
    ensures low { length low.new ≡ 13 }
    ensures page_up { length page_up.new ≡ 9 }
    ensures page_low { length page_low.new ≡ 9 }
    ensures zone { WorkedIs B.Bound.kind page.now up.new low.new
        (fired_over B.Bound.kind (N.NetStore.net store.now) transition matching.now page.now)
        result }
{
    begin(page.cells, page_up, page_low);
    if !narrow_matched(store, transition, matching, page.cells, page_up, page_low) {
        return None;
    }
    Some(replace(
        store, transition, matching, page, page_up, page_low, up, low,
    ))
}

/// Whether every digit is 0 or may be a token of a page.
fn are_tokens(digits: &[u8]) -> bool
    ensures { IsTrue result ↔ PageDigits digits.now }
{
    digits.iter().all(|digit| *digit < 9)
}

/// The cases, in rows of their own.
fn work_in<B: Bound, N: NetStore<B>>(
    store: &N,
    page: &Page<'_, B>,
    item: Item,
    page_up: &mut [B],
    page_low: &mut [B],
    up: &mut [B],
    low: &mut [B],
) -> Option<Parts>
    requires few { length page.now.places.now ≤ 8 }
    requires page_up { length page_up.old ≡ 9 }
    requires page_low { length page_low.old ≡ 9 }
    requires up { length up.old ≡ 13 }
    requires low { length low.old ≡ 13 }
    ensures up { length up.new ≡ 13 }
    ensures low { length low.new ≡ 13 }
    ensures page_up { length page_up.new ≡ 9 }
    ensures page_low { length page_low.new ≡ 9 }
    ensures zone { WorksIn B.Bound.kind (N.NetStore.net store.now) page.now item up.new low.new
        result }
{
    match (item.zone, item.transition) {
        (0, _) => Some(whole(store, page, page_up, page_low, up, low)),
        (_, 0) => Some(delayed(store, page, page_up, page_low, up, low)),
        (_, transition) => {
            let all = digits(item.matching);
            let matching = &all[..usize::from(arc_count(store, transition, Side::Output))];
            if !are_tokens(matching) {
                return None;
            }
            fired(
                store, transition, matching, page, page_up, page_low, up, low,
            )
        }
    }
}

/// Works out the zone that an item asks for, from the page of the item's zone: what it is made of,
/// and its rows in the first cells; the cells behind are kept. None where the item is void; none
/// too of a page of more than eight tokens, in too few cells, or of a firing with a digit that can
/// be no token's.
pub fn work_out<B: Bound, N: NetStore<B>>(
    store: &N,
    page: &Page<'_, B>,
    item: Item,
    cells: &mut [B],
) -> Option<Parts>
    ensures works { WorksOut B.Bound.kind (N.NetStore.net store.now)
        (zone_on_page B.Bound.kind page.now) item cells.old cells.new result }
    ensures means { MeansItem B.Bound.kind (N.NetStore.net store.now)
        page.now.places.now page.now.cells.now item cells.old cells.new result }
{
    store.keeps_limits();
    if page.places.len() > usize::from(MOST_TOKENS) || cells.len() < ROWS_CELLS {
        return None;
    }
    let (up, rest) = cells.split_at_mut(MOST_POINTS);
    let (low, rest) = rest.split_at_mut(MOST_POINTS);
    let (page_up, rest) = rest.split_at_mut(PAGE_POINTS);
    let (page_low, _) = rest.split_at_mut(PAGE_POINTS);
    work_in(store, page, item, page_up, page_low, up, low)
}
