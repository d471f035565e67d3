// A docket: what it keeps between its calls, and the calls that are lent no memory.
ghost use Rattle.docket_rules.specs.Calls.{Closes, next_due_of};
ghost use Rattle.docket_rules.specs.Tables.{is_sealed};
ghost use Rattle.docket_rules.specs.Worlds.{blank, listed_count};
ghost use Rattle.std.specs.Prelude.{◌≡◌};

mod discharge;
mod open;
mod post;

use arrayvec::ArrayVec;
use docket_dues::Item;
use docket_refusals::CallRefusal;
use docket_rules::Stage;
use std::marker::Model;
use zone_markings::InitialTokens;

// The first item that is due: the target itself.
const TARGET: Item = Item {
    zone: 0,
    transition: 0,
    matching: 0,
};

/// What is kept of one check between its calls. The zones are in the book, which each call is lent.
#[derive(Drop)]
pub struct Docket {
    stage: Stage,
    initial: InitialTokens,
    // how many tokens each written page has, the target's first
    counts: ArrayVec<u8, 64>,
    // vouchers taken
    taken: u64,
}

impl Model for Docket {
    ghost use Rattle.docket_rules.specs.Worlds.{State};

    ghost Value = { State };

    ghost view = { λ d. record {
      stage = d.stage;
      initial = d.initial.items;
      counts = d.counts.items;
      taken = d.taken;
    } };
}

impl Docket {
    /// A blank docket.
    pub fn new() -> Docket
        ensures { result ≡ blank }
    {
        Docket {
            stage: Stage::Blank,
            initial: InitialTokens::new(),
            counts: ArrayVec::new(),
            taken: 0,
        }
    }

    /// No zone may be posted any more: the items are due, the target's first.
    pub fn close(&mut self) -> Result<(), CallRefusal>
        ensures { Closes self.old self.new result }
    {
        if self.stage != Stage::Listing {
            return Err(CallRefusal::WrongStage);
        }
        self.stage = Stage::Proving(TARGET);
        self.taken = 0;
        Ok(())
    }

    /// The first item that is due; none outside proving.
    pub fn next_due(&self) -> Option<Item>
        ensures { result ≡ next_due_of self.now.stage }
    {
        match self.stage {
            Stage::Proving(item) => Some(item),
            Stage::Blank | Stage::Listing | Stage::Sealed => None,
        }
    }

    /// Whether every item is vouched for.
    pub fn is_sealed(&self) -> bool
        ensures { result ≡ is_sealed self.now.stage }
    {
        self.stage == Stage::Sealed
    }

    /// How many zones are listed.
    pub fn listed(&self) -> u8
        ensures { result ≡ listed_count self.now }
    {
        (self.counts.len() as u8).saturating_sub(1)
    }

    /// How many vouchers were taken.
    pub fn taken(&self) -> u64
        ensures { result ≡ self.now.taken }
    {
        self.taken
    }
}
