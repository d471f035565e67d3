// The zone that an item asks to vouch for, made in a draft.
ghost use Rattle.std.specs.Prelude.{◌≡◌};
ghost use Rattle.docket_items.specs.Made.{ZoneMade, copied};

use bounds::Bound;
use docket_dues::Item;
use nets::NetStore;
use zone_drafts::delay::delay_predecessor;
use zone_drafts::firing::firing_predecessor;
use zone_drafts::tokens::Tokens;
use zone_pages::Page;

// The tokens of a page; more than there is room for are none.
fn page_tokens(places: &[u8]) -> Tokens
    ensures { result ≡ copied places.now }
{
    let mut tokens = Tokens::new();
    let _ = tokens.try_extend_from_slice(places);
    tokens
}

/// Makes it from the page of the item's zone. Answers its tokens, or none where the item is void.
pub fn item_zone<B: Bound, N: NetStore<B>>(
    store: &N,
    page: &Page<'_, B>,
    item: Item,
    draft: &mut [B],
) -> Option<Tokens>
    ensures { ZoneMade B.Bound.kind (N.NetStore.net store.now)
        page.now.places.now page.now.cells.now item draft.old draft.new result }
{
    let places = page.places;
    page.load(draft);
    match (item.zone, item.transition) {
        (0, _) => Some(page_tokens(places)),
        (_, 0) => {
            delay_predecessor(draft, places);
            Some(page_tokens(places))
        }
        (_, transition) => firing_predecessor(draft, places, store, transition, item.matching),
    }
}
