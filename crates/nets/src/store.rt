//! The interface of a net store: its ghost member is the net that it means, and every answer is
//! that net's.
ghost use Rattle.nets.specs.Nets.{Net, Limits, arcs_of, arc_of};
ghost use Rattle.std.specs.Prelude.{◌≡◌, length};

use crate::side::Side;
use bounds::{Bound, Range};

/// An arc is named by its transition, its side and its number. Callers have the three apart and
/// hand them on at once, so a struct of them would be made at every call and be no plainer.
pub trait NetStore<B: Bound> {
    ghost net: { Self → Net B };

    /// Does nothing: its contract is that the net keeps the limits of every net.
    fn keeps_limits(&self)
        ensures { Limits B.Bound.kind (net self.now) };

    fn places(&self) -> u8
        ensures { result ≡ (net self.now).places };

    fn transitions(&self) -> u8
        ensures { result ≡ length (net self.now).transitions };

    /// How many arcs the transition has on the side; 0 where there is no such transition.
    fn arcs(&self, transition: u8, side: Side) -> u8
        ensures { result ≡ length (arcs_of (net self.now) transition side) };

    /// The arc's place; 0 where there is no such arc.
    fn place(&self, transition: u8, side: Side, arc: u8) -> u8
        ensures { result ≡ (arc_of B.Bound.kind (net self.now) transition side arc).place };

    /// The arc's range; from 0 without limit where there is no such arc.
    fn range(&self, transition: u8, side: Side, arc: u8) -> Range<B>
        ensures { result ≡ (arc_of B.Bound.kind (net self.now) transition side arc).range };
}
