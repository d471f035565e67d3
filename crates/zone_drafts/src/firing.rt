// The firing predecessor: narrow every matched token, settle, take the matched tokens off, add the
// input arcs' tokens.
ghost use Rattle.std.specs.Prelude.{◌≡◌, ◌+◌, ◌-◌, ◌<◌, ◌≤◌, ◌++◌, map, length, is_ok};
ghost use Rattle.arrayvec.specs.ArrayVec.{array_vec_len};
ghost use Rattle.zone_cells.specs.Cells.{matched_cells, input_cells};
ghost use Rattle.nets.specs.Nets.{arcs_of};
ghost use Rattle.nets.specs.declared.side.Side.TheVariants.{Input, Output};
ghost use Rattle.zone_drafts.specs.Backwards.{FiringBack, NarrowedFor, ReplacedFor, narrowed_once};

use crate::bytes::byte;
use crate::draft::{add_token, narrow, take_off};
use crate::settle::{Inconsistent, settle};
use crate::tokens::{Tokens, sift, some_tokens};
use bounds::Bound;
use nets::{NetStore, Side};
use zone_matchings::{arc_count, digits};
use zones::MOST_TOKENS;

// A transition of a net, for each of its output arcs the token that is matched with it, or 0, and
// the places of a zone's tokens.
#[derive(Drop)]
struct Firing<'a, N> {
    store: &'a N,
    transition: u8,
    matching: &'a [u8],
    places: &'a [u8],
    ghost few: { length places.now ≤ 8 },
}

impl<'a, N> Firing<'a, N> {
    fn narrow_matched<B: Bound>(&self, cells: &mut [B])
    where
        N: NetStore<B>,
        ensures { cells.new ≡ matched_cells B.Bound.kind
            (arcs_of (N.NetStore.net self.now.store.now) self.now.transition Output)
            self.now.matching.now cells.old }
    {
        for arc in 1..=arc_count(self.store, self.transition, Side::Output) {
            self.narrow_by(arc, cells);
        }
    }

    // An output arc narrows the token that it is matched with.
    fn narrow_by<B: Bound>(&self, arc: u8, cells: &mut [B])
    where
        N: NetStore<B>,
        requires { 0 < arc }
        ensures { cells.new ≡ narrowed_once B.Bound.kind (N.NetStore.net self.now.store.now)
            self.now.transition self.now.matching.now arc cells.old }
    {
        let token = byte(self.matching, usize::from(arc) - 1);
        if token != 0 {
            let range = self.store.range(self.transition, Side::Output, arc);
            narrow(cells, token, range);
        }
    }

    // Narrows every matched token and settles the draft.
    fn narrow_all<B: Bound>(&self, cells: &mut [B]) -> Result<(), Inconsistent>
    where
        N: NetStore<B>,
        ensures { NarrowedFor B.Bound.kind (N.NetStore.net self.now.store.now)
            self.now.transition self.now.matching.now self.now.places.now cells.old cells.new
            (is_ok result) }
    {
        self.store.keeps_limits();
        let tokens = self.places.len() as u8;
        self.narrow_matched(cells);
        settle(cells, tokens + 1, &sift(tokens, self.matching, true))
    }

    // Adds the tokens of the input arcs behind those that there are.
    fn add_inputs<B: Bound>(&self, cells: &mut [B], tokens: &mut Tokens)
    where
        N: NetStore<B>,
        requires { array_vec_len tokens.old ≤ 8 }
        ensures cells { cells.new ≡ input_cells B.Bound.kind
            (arcs_of (N.NetStore.net self.now.store.now) self.now.transition Input)
            (array_vec_len tokens.old + 1) cells.old }
        ensures tokens { tokens.new.items ≡ tokens.old.items ++ map (λ a. a.place)
            (arcs_of (N.NetStore.net self.now.store.now) self.now.transition Input) }
    {
        for arc in 1..=arc_count(self.store, self.transition, Side::Input) {
            tokens.push(self.store.place(self.transition, Side::Input, arc));
            let range = self.store.range(self.transition, Side::Input, arc);
            add_token(cells, tokens.len() as u8, range);
        }
    }

    // Takes the matched tokens off, and adds those of the input arcs.
    fn replace<B: Bound>(&self, cells: &mut [B]) -> Tokens
    where
        N: NetStore<B>,
        ensures { ReplacedFor B.Bound.kind (N.NetStore.net self.now.store.now)
            self.now.transition self.now.matching.now self.now.places.now cells.old cells.new
            result.items }
    {
        self.store.keeps_limits();
        let kept = sift(self.places.len() as u8, self.matching, false);
        take_off(cells, &kept, kept.len() as u8);
        let mut tokens = some_tokens(self.places, &kept[1..]);
        self.add_inputs(cells, &mut tokens);
        tokens
    }
}

/// Turns a zone of a page into its firing predecessor, and answers the predecessor's tokens; none
/// where it is void, or where the zone has more than eight tokens.
pub fn firing_predecessor<B: Bound, N: NetStore<B>>(
    cells: &mut [B],
    places: &[u8],
    store: &N,
    transition: u8,
    matching: u16,
) -> Option<Tokens>
    ensures { FiringBack B.Bound.kind (N.NetStore.net store.now) transition matching
        places.now cells.old cells.new result }
{
    if places.len() > usize::from(MOST_TOKENS) {
        return None;
    }
    let arcs = usize::from(arc_count(store, transition, Side::Output));
    let firing = Firing {
        store,
        transition,
        matching: &digits(matching)[..arcs],
        places,
    };
    firing.narrow_all(cells).ok()?;
    Some(firing.replace(cells))
}
