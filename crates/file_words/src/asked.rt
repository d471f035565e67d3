// What the item that is due asks for, in words: the zone as a table, or that it is void.
ghost use Rattle.docket_rules.specs.Calls.{Sound};
ghost use Rattle.file_words.specs.Asked.{DueAdded, asked_text};
ghost use Rattle.std.specs.Prelude.{◌≡◌, ◌++◌, length, string_bytes, OnOk};
ghost use Rattle.zone_cells.specs.Drafts.{draft_zone};
ghost use Rattle.zone_cells.specs.Sizes.{draft_cells};

use crate::bound::BoundWords;
use crate::item::ItemWords;
use crate::table::{Draft, write_table};
use crate::zone::Places;
use docket_dues::Item;
use docket_items::item_zone;
use file_check::DocketFile;
use net_words::Counted;
use nets::NetStore;
use std::alloc::AllocError;
use zone_drafts::tokens::Tokens;

// The zone of an item, as it stands in a draft.
fn write_asked<B: BoundWords>(
    text: &mut String,
    item: Item,
    tokens: &Tokens,
    draft: &[B],
) -> Result<(), AllocError>
    ensures { OnOk result
        (string_bytes text.new
        ≡ string_bytes text.old ++ asked_text B.BoundWords.words item
        (draft_zone B.Bound.kind tokens.now.items draft.now)) }
{
    let words = ItemWords(item);
    let count = tokens.len() as u8;
    let counted = Counted {
        count: u64::from(count),
        name: "token",
    };
    let places = Places(tokens);
    write!(text, "{words} asks for: {counted}\n{places}")?;
    write_table(text, &Draft(draft), count)
}

// What the docket of the file wants to be answered next; nothing, where nothing is due.
pub(crate) fn write_due<B: BoundWords, N: NetStore<B>>(
    text: &mut String,
    store: &N,
    file: &DocketFile<'_, '_, B>,
    draft: &mut [B],
) -> Result<(), AllocError>
    requires sound { Sound B.Bound.kind (N.NetStore.net store.now) file.now.world }
    requires draft { length draft.old ≡ draft_cells }
    ensures { OnOk result
        (DueAdded B.Bound.kind B.BoundWords.words (N.NetStore.net store.now) file.now.world
        (string_bytes text.old) (string_bytes text.new)) }
{
    let Some(item) = file.next_due() else {
        return Ok(());
    };
    match item_zone(store, &file.page(item.zone), item, draft) {
        Some(tokens) => write_asked(text, item, &tokens, draft),
        None => {
            let words = ItemWords(item);
            writeln!(text, "{words} is void")
        }
    }
}
