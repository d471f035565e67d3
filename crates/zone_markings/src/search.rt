// The search for a pairing, token by token of the zone: where none of the marking's is left for the
// next one, another is tried for the last.
ghost use Rattle.zone_cells.specs.Cells.{in_draft};
ghost use Rattle.zone_cells.specs.Drafts.{draft_zone};
ghost use Rattle.zone_markings.specs.Initial.{marking_of};
ghost use Rattle.zone_markings.specs.Pairings.{extends, leads, search_of};
ghost use Rattle.std.specs.Prelude.{◌≡◌, ◌<◌, ◌≤◌, ◌+◌, ◌↔◌, IsTrue, [], ◌∷◌, ◌++◌, length};
ghost use Rattle.zones.specs.Zones.{Satisfies};

use crate::pairing::{Chosen, InitialTokens, Pairing};
use bounds::Bound;

// One number more; there is room for nine.
fn one_more(chosen: &Chosen, number: u8) -> Chosen
    requires { length chosen.now.items ≤ 8 }
    ensures { result.items ≡ chosen.now.items ++ number ∷ [] }
{
    let mut more = Chosen::new();
    let _ = more.try_extend_from_slice(chosen);
    more.push(number);
    more
}

impl<B: Bound> Pairing<'_, B> {
    // Whether the zone's tokens in these places can be paired too, after those that have the chosen
    // numbers. At most nine calls deep.
    fn extends(&self, chosen: &Chosen, places: &[u8]) -> bool
        requires { length chosen.now.items + length places.now ≤ 9 }
        ensures { result ≡ extends
            (search_of B.Bound.kind self.now.cells.now self.now.initial.now.items)
            chosen.now.items places.now }
    {
        let Some((place, later)) = places.split_first() else {
            return true;
        };
        // A closure that leads back to its function states its own clauses. With the room for the
        // numbers in a ghost field of a struct that it captures, no proof was found that it can be
        // called.
        (1..self.end()).any(
            |number|
                requires { length chosen.now.items + length later.now ≤ 8 }
                ensures { result ≡ leads
                    (search_of B.Bound.kind self.entry.now.cells.now
                    self.entry.now.initial.now.items)
                    chosen.entry.now.items place.entry.now later.entry.now number }
            {
                self.number_fits(chosen, *place, number)
                    && self.extends(&one_more(chosen, number), later)
            },
        )
    }
}

/// Whether the marking satisfies the zone that has tokens in these places, and its bounds in a
/// draft's cells.
pub fn satisfies<B: Bound>(initial: &InitialTokens, cells: &[B], places: &[u8]) -> bool
    ensures { IsTrue result ↔ Satisfies B.Bound.kind 1
        (draft_zone B.Bound.kind places.now cells.now) (marking_of initial.now.items) }
{
    let pairing = Pairing { initial, cells };
    places.len() <= initial.len() && pairing.extends(&one_more(&Chosen::new(), 0), places)
}
