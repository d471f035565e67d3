//! The zone that an item asks for, as a value: its bounds are worked out where they are asked for,
//! and no cell of its page is moved.
ghost use Rattle.docket_vouching.specs.Asked.{shown};
ghost use Rattle.nets.specs.Nets.{numbered};
ghost use Rattle.std.specs.Prelude.{◌≡◌, length};

use crate::rows::{MOST_POINTS, page_bound};
use crate::work::Parts;
use bounds::Bound;
use zone_drafts::bytes::{byte, place_of};
use zone_drafts::draft::{cell, lesser};

/// What `work_out` answered, over the page and the cells that it was given.
#[derive(Clone, Copy)]
pub struct AskedZone<'a, B> {
    /// The cells of the item's page.
    pub page: &'a [B],
    /// The points that are kept, and all places.
    pub parts: &'a Parts,
    /// The rows of the zone's points.
    pub rows: &'a [B],
}

impl<'a, B: Bound> AskedZone<'a, B> {
    /// How many tokens it has.
    pub fn tokens(&self) -> usize
        ensures { result ≡ length (shown B.Bound.kind self.now).places }
    {
        self.parts.tokens.len()
    }

    /// The place of a token, numbered from 1; 0 of any other number.
    pub fn place(&self, token: u8) -> u8
        ensures { result ≡ numbered (shown B.Bound.kind self.now).places token 0 }
    {
        place_of(&self.parts.tokens, token)
    }

    /// A bound, by one comparison and one sum.
    pub fn bound(&self, j: u8, i: u8) -> B
        ensures { result ≡ (shown B.Bound.kind self.now).bound j i }
    {
        let (j, i) = (usize::from(j), usize::from(i));
        if j == i {
            B::zero()
        } else if j == 0 {
            cell(self.rows, MOST_POINTS + i)
        } else if i == 0 {
            cell(self.rows, j)
        } else {
            let way = cell(self.rows, j).sum(cell(self.rows, MOST_POINTS + i));
            let kept = self.parts.kept.len();
            if j < kept && i < kept {
                let (row, column) = (byte(&self.parts.kept, j), byte(&self.parts.kept, i));
                lesser(
                    page_bound(self.page, usize::from(row), usize::from(column)),
                    way,
                )
            } else {
                way
            }
        }
    }
}
