// A file that is checked: its net, the reader of its later records, the docket, and the memory that
// the docket's calls are lent. Its methods read a record each, make the call that it asks for, or
// say how the docket stands.
ghost use Rattle.docket_records.specs.DocketRecords.{docket_header, initial_token};
ghost use Rattle.docket_records.specs.Records.{header_size, token_size, voucher_size, zone_size};
ghost use Rattle.docket_rules.specs.Calls.{Close, Discharge, next_due_of};
ghost use Rattle.docket_rules.specs.Tables.{partners_used};
ghost use Rattle.docket_rules.specs.Worlds.{page_cells_at, listed_count, page_places_at};
ghost use Rattle.file_check.specs.Files.{Called, IsLine, PartTaken, Reads, Waits, beginning, filed};
ghost use Rattle.file_check.specs.Files.{opening_ask};
ghost use Rattle.file_rules.specs.Asks.{Make, scratch_page, zone_ask};
ghost use Rattle.net_records.specs.Parts.{Moved, asked};
ghost use Rattle.std.specs.Prelude.{◌≡◌, ◌==◌, ◌<◌, length};

use crate::initial::InitialLists;
use bounds::Bound;
use docket::{BOOK_CELLS, BOOK_PLACES, Docket};
use docket_dues::Item;
use docket_records::docket_header::DocketHeader;
use docket_records::record::Record;
use docket_records::token::InitialToken;
use docket_records::voucher::Voucher;
use docket_records::zone::ZONE_SIZE;
use docket_refusals::CallRefusal;
use file_rules::{FileFault, FileRefusal, Line};
use net_records::packed::PackedNet;
use net_records::reader::{Part, Reader};
use std::marker::Model;
use zone_drafts::draft::DRAFT_CELLS;
use zone_pages::{Book, Page, wipe};

/// A file between two steps. After an error docket and book are as before. What is left to read
/// begins behind the record that was refused; where a record is cut short, nothing was read of it.
// Slices, as of a field that is an array of any kind's bounds it is not proved that its bytes are
// fewer than 2^63.
#[derive(Drop)]
pub struct DocketFile<'a, 'm, B: Bound> {
    net: PackedNet<'a>,
    reader: Reader<'a>,
    docket: Docket,
    cells: &'m mut [B],
    places: &'m mut [u8],
    scratch: &'m mut [B],
}

impl<'a, 'm, B: Bound> Model for DocketFile<'a, 'm, B> {
    ghost use Rattle.docket_rules.specs.Worlds.{with_book};
    ghost use Rattle.file_check.specs.Files.{Filed};
    ghost use Rattle.file_rules.specs.Asks.{scratch_page};
    ghost use Rattle.net_records.specs.NetBytes.{net_of};
    ghost use Rattle.std.specs.Prelude.{◌≡◌};

    ghost Value = { Filed B };

    ghost view = { λ f. record {
      net = net_of B.Bound.kind f.net.bytes.now;
      unread = f.reader;
      world = with_book f.docket f.cells.now f.places.now;
    } };

    ghost invariant = { λ f. f.scratch.now ≡ scratch_page B.Bound.kind };
}

// A refused call, with the record that asked for it.
fn filed(answer: Result<(), CallRefusal>, at: usize) -> Result<(), FileFault>
    ensures { result ≡ filed at answer }
{
    answer.map_err(|refusal| FileFault {
        refusal: FileRefusal::Call(refusal),
        at,
    })
}

impl<'a, 'm, B: Bound> DocketFile<'a, 'm, B> {
    /// A blank docket, and the reader past the net's records.
    pub fn new(
        net: PackedNet<'a>,
        cells: &'m mut [B; BOOK_CELLS],
        places: &'m mut [u8; BOOK_PLACES],
        scratch: &'m mut [B; DRAFT_CELLS],
    ) -> DocketFile<'a, 'm, B>
        ensures { result ≡ beginning B.Bound.kind net.entry.bytes.now }
    {
        wipe(cells);
        places.fill_with(|| 0);
        wipe(scratch);
        DocketFile {
            net,
            reader: net.later_records(),
            docket: Docket::new(),
            cells,
            places,
            scratch,
        }
    }

    /// Whether no record is left, not even a part of one.
    pub fn is_at_end(&self) -> bool
        ensures { result ≡ (length self.now.unread.rest == 0) }
    {
        self.reader.is_empty()
    }

    /// How many zones are listed. The page with this number is the last that was written.
    pub fn listed(&self) -> u8
        ensures { result ≡ listed_count self.now.world.state }
    {
        self.docket.listed()
    }

    /// The page with this number: 0 is the target's, and the listed zones follow.
    pub fn page(&self, number: u8) -> Page<'_, B>
        ensures cells { result.cells.now ≡ page_cells_at self.now.world number }
        ensures places { result.places.now ≡ page_places_at self.now.world number }
        ensures few { length result.places.now < 256 }
    {
        let book = Book {
            cells: &*self.cells,
            places: &*self.places,
        };
        self.docket.page(&book, number)
    }

    /// The first item that is due; none outside proving.
    pub fn next_due(&self) -> Option<Item>
        ensures { result ≡ next_due_of self.now.world.state.stage }
    {
        self.docket.next_due()
    }

    /// How many vouchers were taken.
    pub fn taken(&self) -> u64
        ensures { result ≡ self.now.world.state.taken }
    {
        self.docket.taken()
    }

    /// How many partners a voucher uses: all, where its zone is not listed.
    pub fn partners_used(&self, voucher: &Voucher) -> u8
        ensures { result ≡ partners_used self.now.world.state voucher.now }
    {
        self.docket.partners_used(voucher)
    }

    /// The line of a file that ends here: the first item that is due, or the seal; none until the
    /// list is closed.
    pub fn line(&self) -> Option<Line>
        ensures { IsLine self.now.world.state result }
    {
        let vouchers = self.docket.taken();
        match self.docket.next_due() {
            Some(item) => Some(Line::Due { item, vouchers }),
            None if self.docket.is_sealed() => Some(Line::Sealed {
                zones: self.docket.listed(),
                vouchers,
            }),
            None => None,
        }
    }

    /// The docket header. No call is made.
    pub fn header(&mut self) -> Result<DocketHeader, FileFault>
        ensures { Reads header_size docket_header self.old result self.new }
    {
        Ok(DocketHeader::next(&mut self.reader)?)
    }

    /// An initial token. No call is made.
    pub fn token(&mut self) -> Result<InitialToken, FileFault>
        ensures { Reads token_size initial_token self.old result self.new }
    {
        Ok(InitialToken::next(&mut self.reader)?)
    }

    /// Opens the docket with the target's record.
    pub fn target(&mut self, initial: &InitialLists) -> Result<(), FileFault>
        ensures made { Called B.Bound.kind
            (opening_ask B.Bound.kind initial.now self.old.unread) self.old result self.new }
        ensures moved { Moved zone_size self.old.unread result self.new.unread }
        ensures left { self.new.unread ≡ asked zone_size self.old.unread }
    {
        let Part { bytes, at } = self.reader.part(ZONE_SIZE)?;
        let cells = &mut *self.cells;
        let places = &mut *self.places;
        let scratch = &mut *self.scratch;
        let answer = self.docket.open(
            &self.net,
            cells,
            places,
            scratch,
            &initial.places,
            &initial.ages,
            bytes,
        );
        filed(answer, at)
    }

    /// Posts the next zone.
    pub fn zone(&mut self) -> Result<(), FileFault>
        ensures made { Called B.Bound.kind
            (zone_ask B.Bound.kind self.old.unread.next self.old.unread.rest)
            self.old result self.new }
        ensures moved { Moved zone_size self.old.unread result self.new.unread }
        ensures left { self.new.unread ≡ asked zone_size self.old.unread }
    {
        let Part { bytes, at } = self.reader.part(ZONE_SIZE)?;
        let cells = &mut *self.cells;
        let places = &mut *self.places;
        let scratch = &mut *self.scratch;
        let answer = self.docket.post(&self.net, cells, places, scratch, bytes);
        filed(answer, at)
    }

    /// Closes the list. There is no record of it: a refusal would name the one that comes next.
    pub fn close(&mut self) -> Result<(), FileFault>
        ensures made { Called B.Bound.kind (Make self.old.unread.next Close)
            self.old result self.new }
        ensures unread { self.new.unread ≡ self.old.unread }
    {
        let at = self.reader.number();
        let answer = self.docket.close();
        filed(answer, at)
    }

    /// The record of the next voucher. No call is made.
    pub fn voucher_record(&mut self) -> Result<Part<'a>, FileFault>
        ensures taken { PartTaken voucher_size self.old.unread result self.new.unread }
        ensures waits { Waits self.old self.new }
    {
        Ok(self.reader.part(Voucher::SIZE)?)
    }

    /// Discharges the voucher of this record.
    pub fn discharge(&mut self, part: Part<'_>) -> Result<(), FileFault>
        ensures made { Called B.Bound.kind
            (Make part.entry.at (Discharge part.entry.bytes.now (scratch_page B.Bound.kind)))
            self.old result self.new }
        ensures unread { self.new.unread ≡ self.old.unread }
    {
        let Part { bytes, at } = part;
        let cells = &mut *self.cells;
        let places = &mut *self.places;
        let scratch = &mut *self.scratch;
        let answer = self
            .docket
            .discharge(&self.net, cells, places, scratch, bytes);
        filed(answer, at)
    }
}
