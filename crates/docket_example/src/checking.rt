// The check of a certificate: one docket, from the blank one through a call for each entry.
ghost use Rattle.bounds.specs.PlainKind.{plain_kind};
ghost use Rattle.docket_example.specs.Checking.{
  Checked,
  at_entry,
  initial_marking,
  line_net,
  target_given,
};
ghost use Rattle.std.specs.Prelude.{◌≡◌};
ghost use Rattle.zones.specs.Safety.{Safe, starts_at};

use crate::certificate::Certificate;
use bounds::{Bound, PlainBound};
use docket::{BOOK_CELLS, BOOK_PLACES, Docket};
use docket_dues::Item;
use docket_refusals::CallRefusal;
use docket_rules::calls_keep_laws;
use net_handover::Handover;
use nets::NetStore;
use zone_drafts::draft::DRAFT_CELLS;

/// What a certificate comes to whose entries are all taken.
#[derive(Clone, Copy, PartialEq, Eq, Debug)]
pub enum Verdict {
    /// No run of the line covers the target.
    Sealed,
    /// The vouchers end before this item.
    StillDue(Item),
}

/// An entry of a certificate; zones and vouchers by their index in it, from 0.
#[derive(Clone, Copy, PartialEq, Eq, Debug)]
pub enum Entry {
    /// The initial marking and the target.
    Opening,
    /// A listed zone.
    Zone(usize),
    /// The end of the list of zones, which is never refused.
    ListEnd,
    /// A voucher.
    Voucher(usize),
}

/// The first entry that is refused, and why.
#[derive(Clone, Copy, PartialEq, Eq, Debug)]
pub struct Refused {
    /// Which one.
    pub entry: Entry,
    /// The docket's answer to its call.
    pub refusal: CallRefusal,
}

// The answer to an entry's call, with its refusal put down to the entry.
fn at(entry: Entry, answer: Result<(), CallRefusal>) -> Result<(), Refused>
    ensures { result ≡ at_entry entry answer }
{
    answer.map_err(|refusal| Refused { entry, refusal })
}

/// Gives each entry to a blank docket, in order, and says what they come to.
pub fn check(line: &Handover, certificate: &Certificate<'_>) -> Result<Verdict, Refused>
    ensures seal { result ≡ Ok Verdict.Sealed →
        Safe plain_kind (line_net line.now) (starts_at (initial_marking certificate.now))
        (target_given certificate.now) }
    ensures exact { Checked (line_net line.now) certificate.now result }
{
    // These two do nothing: what they ensure is what calls on a docket come to over this store.
    line.keeps_limits();
    calls_keep_laws::<PlainBound>();
    let mut docket = Docket::new();
    let mut cells = [PlainBound::no_limit(); BOOK_CELLS];
    let mut book = [0; BOOK_PLACES];
    let mut scratch = [PlainBound::no_limit(); DRAFT_CELLS];
    let opened = docket.open(
        line,
        &mut cells,
        &mut book,
        &mut scratch,
        certificate.places,
        certificate.ages,
        certificate.target,
    );
    at(Entry::Opening, opened)?;
    for (number, zone) in certificate.zones.iter().enumerate() {
        let posted = docket.post(line, &mut cells, &mut book, &mut scratch, zone);
        at(Entry::Zone(number), posted)?;
    }
    at(Entry::ListEnd, docket.close())?;
    for (taken, voucher) in certificate.vouchers.iter().enumerate() {
        let discharged = docket.discharge(line, &cells, &book, &mut scratch, voucher);
        at(Entry::Voucher(taken), discharged)?;
    }
    Ok(match docket.next_due() {
        Some(item) => Verdict::StillDue(item),
        None => Verdict::Sealed,
    })
}
