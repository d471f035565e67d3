// One voucher for the first item that is due, and the pages that it speaks of.
ghost use Rattle.docket.specs.Discharging.{
  Advanced,
  Weighed,
  Works,
  judged,
  objection_to,
  voucher_read,
  zone_worked,
};
ghost use Rattle.docket.specs.Dockets.{world_over};
ghost use Rattle.docket_rules.specs.Calls.{Discharges};
ghost use Rattle.docket_rules.specs.Promise.{Promise};
ghost use Rattle.docket_rules.specs.Tables.{pairing_of, partners_used};
ghost use Rattle.docket_rules.specs.Worlds.{page_cells_at, in_list, lent, page_places_at};
ghost use Rattle.std.specs.Prelude.{◌≡◌, ◌<◌, length, slice_index};
ghost use Rattle.docket_vouching.specs.Asked.{shown};

use crate::docket::Docket;
use crate::memory::is_whole;
use bounds::Bound;
use docket_dues::Item;
use docket_items::next_due;
use docket_records::fault::EntryRefusal;
use docket_records::record::Record;
use docket_records::voucher::Voucher;
use docket_refusals::CallRefusal;
use docket_rules::{Stage, seals_keep_promises};
use docket_vouching::asked::AskedZone;
use docket_vouching::vouching::Vouching;
use docket_vouching::work::{Parts, work_out};
use nets::NetStore;
use zone_drafts::bytes::byte;
use zone_pages::{Book, Objection, Page, wipe};
use zones::MOST_TOKENS;

impl Docket {
    // How many tokens a page has; one that is not written has none.
    fn token_count(&self, number: u8) -> u8
        ensures { result ≡ slice_index self.now.counts number }
    {
        byte(&self.counts, usize::from(number))
    }

    /// The page with this number, and the places of its tokens.
    pub fn page<'a, B: Bound>(&self, book: &Book<'a, B>, number: u8) -> Page<'a, B>
        ensures cells { result.cells.now ≡ page_cells_at (world_over self.now book.now) number }
        ensures places { result.places.now ≡ page_places_at (world_over self.now book.now) number }
        ensures few { length result.places.now < 256 }
    {
        book.page(number, self.token_count(number))
    }

    fn is_listed(&self, zone: u8) -> bool
        ensures { result ≡ in_list self.now zone }
    {
        (1..=self.listed()).contains(&zone)
    }

    /// How many partners a voucher uses: all, where its zone is not listed.
    pub fn partners_used(&self, voucher: &Voucher) -> u8
        ensures { result ≡ partners_used self.now voucher.now }
    {
        if self.is_listed(voucher.zone) {
            self.token_count(voucher.zone)
        } else {
            MOST_TOKENS
        }
    }

    fn read_voucher(&self, bytes: &[u8]) -> Result<Voucher, EntryRefusal>
        ensures { result ≡ voucher_read self.now bytes.now }
    {
        let voucher = Voucher::read(bytes)?;
        if voucher.unused_set(self.partners_used(&voucher)) {
            return Err(EntryRefusal::NotZero);
        }
        Ok(voucher)
    }

    // The partners that the voucher uses.
    fn pairing<'v>(&self, voucher: &'v Voucher) -> &'v [u8]
        ensures { result.now ≡ pairing_of self.now voucher.now }
    {
        let tokens = usize::from(self.token_count(voucher.zone));
        voucher.partners.get(..tokens).unwrap_or(&voucher.partners)
    }

    // What stands against the zone that the voucher names.
    fn objection<B: Bound>(
        &self,
        book: &Book<'_, B>,
        asked: AskedZone<'_, B>,
        voucher: &Voucher,
    ) -> Result<(), Objection>
        ensures { result ≡
            objection_to B.Bound.kind (world_over self.now book.now) voucher.now
            (shown B.Bound.kind asked.entry) }
    {
        let vouching = Vouching {
            page: self.page(book, voucher.zone),
            asked,
            pairing: self.pairing(voucher),
        };
        vouching.check()
    }

    // Over the item's page and the rows the parts are the zone that it asks for; it is void where
    // there are none.
    fn judge<B: Bound>(
        &self,
        book: &Book<'_, B>,
        page: &[B],
        rows: &[B],
        parts: Option<Parts>,
        voucher: &Voucher,
    ) -> Result<(), CallRefusal>
        ensures { result ≡
            judged B.Bound.kind (world_over self.now book.now) voucher.now
            (zone_worked B.Bound.kind page.now rows.now parts) }
    {
        match (voucher.void, parts) {
            (true, None) => Ok(()),
            (true, Some(_)) => Err(CallRefusal::NotVoid),
            (false, None) => Err(CallRefusal::VoidItem),
            (false, Some(_)) if !self.is_listed(voucher.zone) => Err(CallRefusal::NoSuchZone),
            (false, Some(parts)) => {
                let asked = AskedZone {
                    page,
                    parts: &parts,
                    rows,
                };
                Ok(self.objection(book, asked, voucher)?)
            }
        }
    }

    // Whether the voucher answers the item. The scratch page is left with what was worked out.
    fn weigh<B: Bound, N: NetStore<B>>(
        &self,
        store: &N,
        book: &Book<'_, B>,
        scratch: &mut [B],
        bytes: &[u8],
        item: Item,
    ) -> Result<(), CallRefusal>
        ensures { Weighed B.Bound.kind (N.NetStore.net store.now) (world_over self.now book.now)
            bytes.now item scratch.old scratch.new result }
    {
        let voucher = self.read_voucher(bytes)?;
        let page = self.page(book, item.zone);
        let parts = work_out(store, &page, item, scratch);
        self.judge(book, page.cells, scratch, parts, &voucher)
    }

    fn advance<B: Bound, N: NetStore<B>>(&mut self, store: &N, book: &Book<'_, B>, item: Item)
        ensures { Advanced B.Bound.kind (N.NetStore.net store.now) (world_over self.old book.now)
            item self.new }
    {
        let places = self.page(book, item.zone).places;
        self.stage = match next_due(store, self.listed(), places, item) {
            Some(next) => Stage::Proving(next),
            None => Stage::Sealed,
        };
        self.taken = self.taken.saturating_add(1);
    }

    // Tests the voucher and moves on.
    fn take<B: Bound, N: NetStore<B>>(
        &mut self,
        store: &N,
        cells: &[B],
        places: &[u8],
        scratch: &mut [B],
        voucher: &[u8],
    ) -> Result<(), CallRefusal>
        ensures step { Discharges B.Bound.kind (N.NetStore.net store.now) voucher.now
            (lent self.old cells.now places.now scratch.old) self.new scratch.new result }
        ensures worked { Works B.Bound.kind (N.NetStore.net store.now) voucher.now
            (lent self.old cells.now places.now scratch.old) result }
    {
        let Stage::Proving(item) = self.stage else {
            return Err(CallRefusal::WrongStage);
        };
        if !is_whole(cells, places, scratch) {
            return Err(CallRefusal::WrongMemory);
        }
        let book = Book { cells, places };
        let answer = self.weigh(store, &book, scratch, voucher, item);
        wipe(scratch);
        answer?;
        self.advance(store, &book, item);
        Ok(())
    }

    /// Takes a voucher for the first item that is due; the last one seals. What it ensures besides
    /// is what is promised of every list of calls from a blank docket over a lawful store.
    pub fn discharge<B: Bound, N: NetStore<B>>(
        &mut self,
        store: &N,
        cells: &[B],
        places: &[u8],
        scratch: &mut [B],
        voucher: &[u8],
    ) -> Result<(), CallRefusal>
        ensures step { Discharges B.Bound.kind (N.NetStore.net store.now) voucher.now
            (lent self.old cells.now places.now scratch.old) self.new scratch.new result }
        ensures worked { Works B.Bound.kind (N.NetStore.net store.now) voucher.now
            (lent self.old cells.now places.now scratch.old) result }
        ensures promise { Promise B.Bound.kind (N.NetStore.net store.now) }
    {
        store.keeps_limits();
        seals_keep_promises::<B>();
        self.take(store, cells, places, scratch, voucher)
    }
}
