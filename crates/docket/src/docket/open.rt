// Opening: the initial marking, and the target on page 0.
ghost use Rattle.docket.specs.Dockets.{Begun, OpenAnswers, OpenTakes};
ghost use Rattle.docket.specs.Gathered.{gathered};
ghost use Rattle.docket_refusals.specs.declared.refusal.CallRefusal.{CallRefusal as Refused};
ghost use Rattle.docket_rules.specs.Calls.{Left};
ghost use Rattle.docket_rules.specs.Tables.{given, initial_tokens, too_old};
ghost use Rattle.docket_rules.specs.Worlds.{book_cells, book_places, lent, with_book};
ghost use Rattle.std.specs.List.{list_any};
ghost use Rattle.std.specs.Prelude.{◌≡◌, ◌≤◌, Err, length, nat_le};
ghost use Rattle.zone_cells.specs.Sizes.{draft_cells};

use crate::docket::Docket;
use crate::memory::{is_whole, write_page};
use bounds::Bound;
use docket_records::fault::EntryRefusal;
use docket_records::token::InitialToken;
use docket_refusals::CallRefusal;
use docket_rules::Stage;
use nets::NetStore;
use zone_markings::InitialTokens;
use zone_pages::wipe;
use zone_reading::read_zone;

const MOST_INITIAL: usize = 8;

// The largest age of an initial token, of 15 bits.
const LARGEST_AGE: u16 = 32767;

// A token for each place, of the age that stands with it. The ages by number: a loop over both by
// `zip` did not prove.
fn paired(places: &[u8], ages: &[u16]) -> InitialTokens
    requires few { length places.now ≤ 8 }
    requires even { length ages.now ≡ length places.now }
    ensures { result.items ≡ initial_tokens (given places.now ages.now) }
{
    let mut tokens = InitialTokens::new();
    for place in places {
        let age = ages.get(tokens.len()).copied().unwrap_or(0);
        tokens.push(InitialToken { place: *place, age });
    }
    tokens
}

fn some_too_old(ages: &[u16]) -> bool
    ensures { result ≡ list_any too_old ages.now }
{
    ages.iter().any(|age| LARGEST_AGE < *age)
}

fn some_outside(net_places: u8, places: &[u8]) -> bool
    ensures { result ≡ list_any (nat_le net_places) places.now }
{
    places.iter().any(|place| net_places <= *place)
}

// The initial tokens of a net of so many places, or what is wrong with them, lowest number first.
fn gather(net_places: u8, places: &[u8], ages: &[u16]) -> Result<InitialTokens, EntryRefusal>
    requires { length ages.now ≡ length places.now }
    ensures { result ≡ gathered net_places (given places.now ages.now) }
{
    if MOST_INITIAL < places.len() || some_too_old(ages) {
        return Err(EntryRefusal::TooMany);
    }
    if some_outside(net_places, places) {
        return Err(EntryRefusal::NoSuchPlace);
    }
    Ok(paired(places, ages))
}

impl Docket {
    // The initial tokens, and the target's zone on page 0.
    fn begin<B: Bound>(
        &mut self,
        net_places: u8,
        cells: &mut [B],
        places: &mut [u8],
        draft: &mut [B],
        initial: &[u8],
        ages: &[u16],
        target: &[u8],
    ) -> Result<(), CallRefusal>
        requires full { length cells.old ≡ book_cells }
        requires whole { length places.old ≡ book_places }
        requires drafted { length draft.old ≡ draft_cells }
        requires even { length ages.now ≡ length initial.now }
        ensures kept { length draft.new ≡ length draft.old }
        ensures tried { Begun B.Bound.kind net_places (given initial.now ages.now) target.now
            (with_book self.old cells.old places.old) (with_book self.new cells.new places.new)
            result }
    {
        let initial = gather(net_places, initial, ages)?;
        let tokens = read_zone(target, net_places, draft)?;
        write_page(cells, places, 0, draft, &tokens);
        self.stage = Stage::Listing;
        self.initial = initial;
        self.counts.clear();
        self.counts.push(tokens.len() as u8);
        self.taken = 0;
        Ok(())
    }

    /// Opens a blank docket: the places of the initial tokens with an age for each, and the record
    /// of the target.
    pub fn open<B: Bound, N: NetStore<B>>(
        &mut self,
        store: &N,
        cells: &mut [B],
        places: &mut [u8],
        scratch: &mut [B],
        initial: &[u8],
        ages: &[u16],
        target: &[u8],
    ) -> Result<(), CallRefusal>
        ensures answers { OpenAnswers B.Bound.kind (N.NetStore.net store.now)
            (given initial.now ages.now) target.now
            (lent self.old cells.old places.old scratch.old) result }
        ensures scratch { Left B.Bound.kind result scratch.old scratch.new }
        ensures refused { (r : Refused) → result ≡ Err r →
            with_book self.new cells.new places.new ≡ with_book self.old cells.old places.old }
        ensures taken { OpenTakes B.Bound.kind (given initial.now ages.now) target.now
            (with_book self.old cells.old places.old) (with_book self.new cells.new places.new)
            result }
    {
        if self.stage != Stage::Blank {
            return Err(CallRefusal::WrongStage);
        }
        if !is_whole(cells, places, scratch) || initial.len() != ages.len() {
            return Err(CallRefusal::WrongMemory);
        }
        let net_places = store.places();
        let result = self.begin(net_places, cells, places, scratch, initial, ages, target);
        wipe(scratch);
        result
    }
}
