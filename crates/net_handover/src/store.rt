//! The line as a net store: places 0 and 1, and one transition, which is number 1 and has one arc
//! on each side.
ghost use Rattle.net_handover.specs.HandoverNet.{handover_net};

use crate::Handover;
use bounds::{PlainBound, Range, bound_of};
use nets::{NetStore, Side};

impl NetStore<PlainBound> for Handover {
    ghost net = { λ s. handover_net s.lower s.upper };

    fn keeps_limits(&self) {}

    fn places(&self) -> u8 {
        2
    }

    fn transitions(&self) -> u8 {
        1
    }

    /// One on each side.
    fn arcs(&self, transition: u8, _side: Side) -> u8 {
        u8::from(transition == 1)
    }

    /// The arcs are these two, so a match says each answer; the input arc has place 0, which is
    /// also the answer where there is no such arc.
    fn place(&self, transition: u8, side: Side, arc: u8) -> u8 {
        match (transition, side, arc) {
            (1, Side::Output, 1) => 1,
            _ => 0,
        }
    }

    fn range(&self, transition: u8, side: Side, arc: u8) -> Range<PlainBound> {
        match (transition, side, arc) {
            (1, Side::Input, 1) => Range {
                upper: bound_of(i32::from(self.upper), false),
                lower: bound_of(-i32::from(self.lower), false),
            },
            (1, Side::Output, 1) => Range {
                upper: bound_of(0, false),
                lower: bound_of(0, false),
            },
            _ => Range::from_zero(),
        }
    }
}
