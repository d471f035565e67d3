//! Zone records: what one says, and its tests in ascending number.
ghost use Rattle.bounds.specs.Kinds.{largest_number};
ghost use Rattle.docket_records.specs.Refusals.{entry_number_of};
ghost use Rattle.docket_records.specs.ZoneRecords.{bound_at, entry_at, entry_bound, has_mark};
ghost use Rattle.docket_records.specs.ZoneRecords.{is_present};
ghost use Rattle.docket_records.specs.ZoneRecords.{not_zero, place_at, place_missing, some_bound};
ghost use Rattle.docket_records.specs.ZoneRecords.{some_in_row, some_token, spare_set, tokens_of};
ghost use Rattle.docket_records.specs.ZoneRecords.{unclean_bound, unclean_entry, unused_place};
ghost use Rattle.docket_records.specs.ZoneRecords.{zone_fault};
ghost use Rattle.docket_records.specs.ZoneRecords.{zone_rows};
ghost use Rattle.net_records.specs.NetRecords.{tested};
ghost use Rattle.net_records.specs.Rows.{AnswersNumber, first_number};
ghost use Rattle.std.specs.List.{list_any, range_with_len};
ghost use Rattle.std.specs.Prelude.{◌≡◌, ◌-◌, ◌≤◌, ℕ, Bool, IfSome, unsigned_abs};

use crate::bits::bits;
use crate::fault::EntryRefusal;
use crate::record_bound::{RecordBound, entry_number, limit_of, signed};
use bounds::{Bound, bound_of};
use zones::MOST_TOKENS;

/// How many bytes a zone record has.
pub const ZONE_SIZE: usize = 192;

/// Any bytes read as a zone record; `check` says whether they are one.
#[derive(Clone, Copy)]
pub struct ZoneRecord<'a> {
    pub(crate) bytes: &'a [u8],
}

/// The clock and the tokens.
const POINTS: u8 = MOST_TOKENS + 1;

fn unclean_entry(present: bool, entry: RecordBound) -> bool
    ensures { result ≡ unclean_entry present entry }
{
    if present {
        entry.mark && entry.number.is_none()
    } else {
        entry.mark || entry.number.is_some()
    }
}

/// Whether the test holds of some number, from `first` to the last token's.
fn some_from<F: Fn(u8) -> bool>(first: u8, test: F) -> bool
    requires { F.IsAlwaysCallable test }
    ensures { (p : ℕ → Bool) → ((n : ℕ) (b : Bool) → F.post test n b → b ≡ p n) →
        result ≡ list_any p (range_with_len first (9 - first)) }
{
    (first..POINTS).any(|number| test(number))
}

/// Whether the test holds of some token.
#[tactic(auto, unfolding(crate::specs::ZoneRecords::some_token))]
fn some_token<F: Fn(u8) -> bool>(test: F) -> bool
    requires { F.IsAlwaysCallable test }
    ensures { (p : ℕ → Bool) → ((t : ℕ) (b : Bool) → F.post test t b → b ≡ p t) →
        result ≡ some_token p }
{
    some_from(1, test)
}

fn some_in_row<F: Fn(u8, u8) -> bool>(test: &F, j: u8) -> bool
    requires { F.IsAlwaysCallable test.now }
    ensures { (p : ℕ → ℕ → Bool) → ((j i : ℕ) (b : Bool) → F.post test.now j i b → b ≡ p j i) →
        result ≡ some_in_row p j }
{
    some_from(0, |i| j != i && test(j, i))
}

/// Whether the test holds of the bound of some two points.
#[tactic(auto, unfolding(crate::specs::ZoneRecords::some_bound))]
fn some_bound<F: Fn(u8, u8) -> bool>(test: F) -> bool
    requires { F.IsAlwaysCallable test }
    ensures { (p : ℕ → ℕ → Bool) → ((j i : ℕ) (b : Bool) → F.post test j i b → b ≡ p j i) →
        result ≡ some_bound p }
{
    some_from(0, |j| some_in_row(&test, j))
}

fn takes_marks<B: Bound>() -> bool
    ensures { result ≡ B.Bound.kind.marks }
{
    B::make(0, true).is_ok()
}

#[tactic(auto, using(crate::proofs::Sizes::limit_made))]
fn entry_bound<B: Bound>(entry: RecordBound) -> B
    requires { IfSome entry.number (λ n. unsigned_abs n ≤ largest_number) }
    ensures { result ≡ entry_bound B.Bound.kind entry }
{
    entry
        .number
        .map_or(B::no_limit(), |number| bound_of(number, entry.mark))
}

impl<'a> ZoneRecord<'a> {
    /// The record that the bytes are read as.
    pub fn new(bytes: &'a [u8]) -> ZoneRecord<'a>
        ensures { result.bytes.now ≡ bytes.now }
    {
        ZoneRecord { bytes }
    }

    #[tactic(auto, unfolding(crate::specs::ZoneRecords::tokens_of))]
    pub fn tokens(&self) -> u8
        ensures { result ≡ tokens_of self.now.bytes.now }
    {
        bits(self.bytes, 4, 4) as u8
    }

    /// The place of a token, numbered from 1; 0 of any other number.
    #[tactic(auto, unfolding(crate::specs::ZoneRecords::place_at))]
    pub fn place(&self, token: u8) -> u8
        ensures { result ≡ place_at self.now.bytes.now token }
    {
        if !(1..=MOST_TOKENS).contains(&token) {
            return 0;
        }
        bits(self.bytes, 8 + 6 * usize::from(token - 1), 6) as u8
    }

    /// The bound of points `j` and `i`: zero where they are the same, and no limit past the last
    /// point.
    #[tactic(auto, using(crate::proofs::Sizes::number_small))]
    pub fn bound<B: Bound>(&self, j: u8, i: u8) -> B
        ensures { result ≡ bound_at B.Bound.kind self.now.bytes.now j i }
    {
        if j == i {
            return B::zero();
        }
        if MOST_TOKENS < j || MOST_TOKENS < i {
            return B::no_limit();
        }
        entry_bound(self.entry(j, i))
    }

    /// The bound of `j` and `i` as it stands.
    pub(crate) fn entry(&self, j: u8, i: u8) -> RecordBound
        ensures { result ≡ entry_at self.now.bytes.now j i }
    {
        let both = bits(self.bytes, 96 + 20 * entry_number(j, i), 20);
        RecordBound {
            mark: both / 524_288 == 1,
            number: limit_of(signed(both % 524_288)),
        }
    }

    /// The spare fields are zero where their sum is.
    #[tactic(auto, using(crate::proofs::Said::spare_sum))]
    fn spare_set(&self) -> bool
        ensures { result ≡ spare_set self.now.bytes.now }
    {
        bits(self.bytes, 0, 4) + bits(self.bytes, 56, 20) + bits(self.bytes, 76, 20) != 0
    }

    /// Whether the token is absent, and its place not zero.
    fn unused_place(&self, token: u8) -> bool
        ensures { result ≡ unused_place self.now.bytes.now token }
    {
        self.tokens() < token && self.place(token) != 0
    }

    /// Whether the token is present, and its place not in the net.
    fn place_missing(&self, places: u8, token: u8) -> bool
        ensures { result ≡ place_missing places self.now.bytes.now token }
    {
        token <= self.tokens() && places <= self.place(token)
    }

    fn is_present(&self, j: u8, i: u8) -> bool
        ensures { result ≡ is_present self.now.bytes.now j i }
    {
        let tokens = self.tokens();
        j <= tokens && i <= tokens
    }

    fn unclean_bound(&self, j: u8, i: u8) -> bool
        ensures { result ≡ unclean_bound self.now.bytes.now j i }
    {
        unclean_entry(self.is_present(j, i), self.entry(j, i))
    }

    /// Whether the bound of two points is present and has a mark.
    fn has_mark(&self, j: u8, i: u8) -> bool
        ensures { result ≡ has_mark self.now.bytes.now j i }
    {
        self.is_present(j, i) && self.entry(j, i).mark
    }

    fn not_zero(&self) -> bool
        ensures { result ≡ not_zero self.now.bytes.now }
    {
        self.spare_set()
            || some_token(|token| self.unused_place(token))
            || some_bound(|j, i| self.unclean_bound(j, i))
    }

    /// Tests the record under a net of so many places, lowest number first.
    pub fn check<B: Bound>(&self, places: u8) -> Result<(), EntryRefusal>
        ensures answer { result ≡
            tested tt (zone_fault B.Bound.kind.marks places self.now.bytes.now) }
        ensures number { AnswersNumber entry_number_of
            (first_number (zone_rows B.Bound.kind.marks places self.now.bytes.now)) result }
    {
        if self.bytes.len() != ZONE_SIZE {
            return Err(EntryRefusal::WrongLength);
        }
        if self.not_zero() {
            return Err(EntryRefusal::NotZero);
        }
        if MOST_TOKENS < self.tokens() {
            return Err(EntryRefusal::TooMany);
        }
        if some_token(|token| self.place_missing(places, token)) {
            return Err(EntryRefusal::NoSuchPlace);
        }
        if !takes_marks::<B>() && some_bound(|j, i| self.has_mark(j, i)) {
            return Err(EntryRefusal::MarkUnderPlain);
        }
        Ok(())
    }
}
