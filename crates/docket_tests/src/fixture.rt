// A docket with the memory that its calls are lent; a call that is taken, and one that is refused
// and leaves everything as it was.
use bounds::{Bound, bound_of};
use docket::{BOOK_CELLS, BOOK_PLACES, Docket};
use docket_dues::Item;
use docket_refusals::CallRefusal;
use net_records::fault::Refusal;
use net_records::packed::PackedNet;
use std::alloc::Global;
use std::process::Abort;
use std::test::Fail;
use zone_drafts::draft::DRAFT_CELLS;

/// How many cells and places of the book, and cells of the scratch page, a call is lent.
pub type Lent = (usize, usize, usize);

/// The lengths that are stated.
pub const WHOLE: Lent = (BOOK_CELLS, BOOK_PLACES, DRAFT_CELLS);

/// One of them too short, too long, and nothing at all.
pub const NOT_WHOLE: [Lent; 7] = [
    // cells
    (5183, 512, 169),
    (5185, 512, 169),
    // places
    (5184, 511, 169),
    (5184, 513, 169),
    // scratch page
    (5184, 512, 168),
    (5184, 512, 170),
    // nothing
    (0, 0, 0),
];

/// A call with what it is given.
#[derive(Clone, Copy, Debug)]
pub enum Call<'c> {
    // places and ages of the initial tokens, and the target
    Open(&'c [u8], &'c [u16], &'c [u8]),
    Post(&'c [u8]),
    Close,
    Discharge(&'c [u8]),
}

// What a docket can be asked: next-due, whether it is sealed, its listed zones and its vouchers.
type Answers = (Option<Item>, bool, u8, u64);

fn answers(docket: &Docket) -> Answers {
    (
        docket.next_due(),
        docket.is_sealed(),
        docket.listed(),
        docket.taken(),
    )
}

/// Its memory is longer by one item than what is to be lent.
#[derive(Drop)]
pub struct Fixture<'a, B> {
    pub heap: Global,
    pub docket: Docket,
    pub store: PackedNet<'a>,
    pub cells: Vec<B>,
    pub places: Vec<u8>,
    scratch: Vec<B>,
}

// What a refused call leaves as it was.
#[derive(Drop)]
struct Kept<B> {
    answers: Answers,
    cells: Vec<B>,
    places: Vec<u8>,
}

// The scratch page, all of one bound, and the cell after it, which no call reaches.
fn scratch_of<B: Bound>(heap: Global, bound: B) -> Result<Vec<B>, Fail> {
    let mut cells = Vec::new(heap);
    cells.resize(DRAFT_CELLS, bound)?;
    cells.push(B::zero())?;
    Ok(cells)
}

impl<'a, B: Bound + PartialEq> Fixture<'a, B> {
    /// A blank docket, whose book has another number in each cell.
    pub fn blank(heap: Global, bytes: &'a [u8]) -> Result<Fixture<'a, B>, Fail> {
        let mut cells = Vec::new(heap);
        for number in 0..5185 {
            cells.push(bound_of(number, false))?;
        }
        let mut places = Vec::new(heap);
        for _ in 0..57 {
            places.extend_from_slice(&[9, 8, 7, 6, 5, 4, 3, 2, 1])?;
        }
        Ok(Fixture {
            heap,
            docket: Docket::new(),
            store: PackedNet::read(bytes).ok().ok_or("no net")?,
            cells,
            places,
            scratch: scratch_of(heap, B::zero())?,
        })
    }

    fn call(&mut self, lent: Lent, call: Call<'_>) -> Result<(), CallRefusal> {
        let cells_size = lent.0.min(self.cells.len());
        let (cells, _) = self.cells.split_at_mut(cells_size);
        let places_size = lent.1.min(self.places.len());
        let (places, _) = self.places.split_at_mut(places_size);
        let scratch_size = lent.2.min(self.scratch.len());
        let (scratch, _) = self.scratch.split_at_mut(scratch_size);
        let (docket, store) = (&mut self.docket, &self.store);
        match call {
            Call::Open(initial, ages, target) => {
                docket.open(store, cells, places, scratch, initial, ages, target)
            }
            Call::Post(zone) => docket.post(store, cells, places, scratch, zone),
            Call::Close => docket.close(),
            Call::Discharge(voucher) => docket.discharge(store, cells, places, scratch, voucher),
        }
    }

    fn kept(&self) -> Result<Kept<B>, Fail> {
        Ok(Kept {
            answers: answers(&self.docket),
            cells: self.cells.as_slice().to_vec(self.heap)?,
            places: self.places.as_slice().to_vec(self.heap)?,
        })
    }

    fn check_kept(&self, rt: &impl Abort, kept: &Kept<B>, call: Call<'_>) {
        assert!(rt;
            answers(&self.docket) == kept.answers,
            "docket after {call:?}"
        );
        assert!(rt;
            self.cells.as_slice() == kept.cells.as_slice(),
            "cells after {call:?}"
        );
        assert!(rt;
            self.places.as_slice() == kept.places.as_slice(),
            "places after {call:?}"
        );
    }

    // All cells of the scratch page are this bound, and the one after it is what it was.
    fn check_scratch(&self, rt: &impl Abort, bound: B, call: Call<'_>) -> Result<(), Fail> {
        let left = scratch_of(self.heap, bound)?;
        assert!(rt;
            self.scratch.as_slice() == left.as_slice(),
            "scratch after {call:?}"
        );
        Ok(())
    }

    // A call that is taken. Close is lent nothing; every other one leaves no limit in the scratch
    // page.
    fn takes(&mut self, rt: &impl Abort, call: Call<'_>) -> Result<(), Fail> {
        self.scratch = scratch_of(self.heap, B::zero())?;
        let answer = self.call(WHOLE, call);
        assert_eq!(rt; number(answer), None, "{call:?}");
        let bound = if matches!(call, Call::Close) {
            B::zero()
        } else {
            B::no_limit()
        };
        self.check_scratch(rt, bound, call)
    }

    // A call that is refused with this number. It changes neither docket nor book; after 40, 41 and
    // 42 it has not touched the scratch page, else that is left without limit.
    fn refuses(
        &mut self,
        rt: &impl Abort,
        lent: Lent,
        call: Call<'_>,
        refusal: u8,
    ) -> Result<(), Fail> {
        self.scratch = scratch_of(self.heap, B::zero())?;
        let kept = self.kept()?;
        let answer = self.call(lent, call);
        assert_eq!(rt; number(answer), Some(refusal), "lent {lent:?}: {call:?}");
        self.check_kept(rt, &kept, call);
        let bound = if 40 <= refusal {
            B::zero()
        } else {
            B::no_limit()
        };
        self.check_scratch(rt, bound, call)
    }

    /// A call that is refused with this number; taken where it is 0.
    pub fn gives(&mut self, rt: &impl Abort, call: Call<'_>, refusal: u8) -> Result<(), Fail> {
        if refusal == 0 {
            self.takes(rt, call)
        } else {
            self.refuses(rt, WHOLE, call, refusal)
        }
    }

    /// The same where it is refused, and another number where it is lent too little or too much.
    pub fn refuses_each(
        &mut self,
        rt: &impl Abort,
        call: Call<'_>,
        refusal: u8,
        not_whole: u8,
    ) -> Result<(), Fail> {
        for lent in NOT_WHOLE {
            self.refuses(rt, lent, call, not_whole)?;
        }
        if refusal != 0 {
            self.refuses(rt, WHOLE, call, refusal)?;
        }
        Ok(())
    }
}

fn number(answer: Result<(), CallRefusal>) -> Option<u8> {
    answer.err().map(|refusal| refusal.number())
}
