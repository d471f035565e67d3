// Posting a listed zone.
ghost use Rattle.docket.specs.Dockets.{Listed};
ghost use Rattle.docket_rules.specs.Calls.{Posts};
ghost use Rattle.docket_rules.specs.Worlds.{book_cells, book_places, lent, with_book};
ghost use Rattle.docket_rules.specs.declared.stage.Stage.TheVariants.{Listing};
ghost use Rattle.std.specs.Prelude.{◌≡◌, ◌<◌, length};
ghost use Rattle.zone_cells.specs.Sizes.{draft_cells};

use crate::docket::Docket;
use crate::memory::{is_whole, write_page};
use bounds::Bound;
use docket_refusals::CallRefusal;
use docket_rules::Stage;
use nets::NetStore;
use zone_markings::satisfies;
use zone_pages::wipe;
use zone_reading::read_zone;

impl Docket {
    // The record's zone on the next page, where it is well formed and the initial marking does not
    // satisfy it.
    fn list<B: Bound>(
        &mut self,
        net_places: u8,
        cells: &mut [B],
        places: &mut [u8],
        draft: &mut [B],
        zone: &[u8],
    ) -> Result<(), CallRefusal>
        requires listing { self.old.stage ≡ Listing }
        requires room { length self.old.counts < 64 }
        requires full { length cells.old ≡ book_cells }
        requires whole { length places.old ≡ book_places }
        requires drafted { length draft.old ≡ draft_cells }
        ensures kept { length draft.new ≡ length draft.old }
        ensures tried { Listed B.Bound.kind net_places zone.now
            (with_book self.old cells.old places.old) (with_book self.new cells.new places.new)
            result }
    {
        let tokens = read_zone(zone, net_places, draft)?;
        if satisfies(&self.initial, draft, &tokens) {
            return Err(CallRefusal::Covered);
        }
        let number = self.counts.len() as u8;
        write_page(cells, places, number, draft, &tokens);
        self.counts.push(tokens.len() as u8);
        Ok(())
    }

    /// Lists the record's zone.
    pub fn post<B: Bound, N: NetStore<B>>(
        &mut self,
        store: &N,
        cells: &mut [B],
        places: &mut [u8],
        scratch: &mut [B],
        zone: &[u8],
    ) -> Result<(), CallRefusal>
        ensures { Posts B.Bound.kind (N.NetStore.net store.now) zone.now
            (lent self.old cells.old places.old scratch.old)
            (lent self.new cells.new places.new scratch.new) result }
    {
        if self.stage != Stage::Listing {
            return Err(CallRefusal::WrongStage);
        }
        if !is_whole(cells, places, scratch) {
            return Err(CallRefusal::WrongMemory);
        }
        if self.counts.is_full() {
            return Err(CallRefusal::FullList);
        }
        let result = self.list(store.places(), cells, places, scratch, zone);
        wipe(scratch);
        result
    }
}
