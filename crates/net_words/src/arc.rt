//! An arc in words.
ghost use Rattle.net_words.specs.Arcs.{arc_text};
ghost use Rattle.std.specs.Prelude.{Some};

use crate::ages::Ages;
use net_records::slot::Slot;
use nets::Side;
use std::fmt;

#[derive(Clone, Copy)]
pub struct ArcWords {
    pub side: Side,
    pub slot: Slot,
}

impl fmt::Display for ArcWords {
    ghost output = { λ arc. Some (arc_text arc) };

    fn fmt<W: fmt::Write>(&self, f: &mut fmt::Formatter<W>) -> fmt::Result {
        let place = self.slot.place;
        let ages = Ages(self.slot);
        match self.side {
            Side::Input => write!(f, "takes from place {place}, {ages}"),
            Side::Output => write!(f, "puts into place {place}, {ages}"),
        }
    }
}
