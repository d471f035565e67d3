//! The packed net store: net records in borrowed bytes, tested first. Each arc is decoded where it
//! lies, and inlined, of its slot only what is asked for.
ghost use Rattle.net_records.specs.NetBytes.{after_net, arcs_at, TransitionAt, net_of};
ghost use Rattle.net_records.specs.NetBytes.{side_count};
ghost use Rattle.net_records.specs.NetBytes.{side_start, slot_at};
ghost use Rattle.net_records.specs.NetRecords.{FaultNumbered, front_header, net_fault, sound};
ghost use Rattle.net_records.specs.NetRecords.{transition_record};
ghost use Rattle.net_records.specs.Slots.{slot_range};
ghost use Rattle.std.specs.Prelude.{◌≡◌, ◌+◌, ◌≤◌, ◌&&◌, nat_le, Some, IfErr, IsTrue};
ghost use Rattle.std.specs.Prelude.{MatchResult};

use crate::fault::NetFault;
use crate::header::NetHeader;
use crate::net::check_net;
use crate::reader::Reader;
use crate::slot::Slot;
use crate::transition::{TransitionRecord, side_count};
use bounds::{Bound, Range, bound_of};
use nets::{NetStore, Side};

/// The net that tested bytes say.
#[derive(Clone, Copy)]
pub struct PackedNet<'a> {
    header: NetHeader,
    bytes: &'a [u8],
    ghost tested: { IsTrue (sound bytes.now) },
    ghost read: { header ≡ front_header bytes.now },
}

#[inline]
fn has_arc(bytes: &[u8; TransitionRecord::SIZE], side: Side, arc: u8) -> bool
    ensures { result ≡
        (nat_le 1 arc && nat_le arc (side_count side (transition_record bytes.now))) }
{
    (1..=side_count(bytes[0], side)).contains(&arc)
}

/// Where the slots of a side begin.
#[inline]
fn first_slot(side: Side) -> usize
    ensures start { result ≡ side_start side }
    ensures bound { result ≤ 21 }
{
    match side {
        Side::Input => 1,
        Side::Output => 1 + 4 * Slot::SIZE,
    }
}

impl<'a> PackedNet<'a> {
    /// The net that the bytes say, or why `check_net` refuses them.
    pub fn read(bytes: &'a [u8]) -> Result<PackedNet<'a>, NetFault>
        ensures answer { MatchResult result
            (λ net. (net.bytes.now ≡ bytes.now) × IsTrue (sound bytes.now))
            (λ fault. net_fault bytes.now ≡ Some fault) }
        ensures number { IfErr result (λ fault. FaultNumbered bytes.now fault) }
    {
        let header = check_net(bytes)?;
        Ok(PackedNet { header, bytes })
    }

    /// The net's header.
    pub fn header(&self) -> NetHeader
        ensures { result ≡ front_header self.now.bytes.now }
    {
        self.header
    }

    /// A reader of the records that follow the net's.
    pub fn later_records(&self) -> Reader<'a>
        ensures { result ≡ after_net self.now.bytes.now }
    {
        let transitions = usize::from(self.header.transitions);
        Reader {
            rest: &self.bytes[NetHeader::SIZE + TransitionRecord::SIZE * transitions..],
            next: 1 + transitions,
        }
    }

    /// The bytes of a transition, if there is one of this number.
    #[inline]
    fn transition(&self, number: u8) -> Option<&'a [u8; TransitionRecord::SIZE]>
        ensures { TransitionAt self.now.bytes.now number result }
    {
        if !(1..=self.header.transitions).contains(&number) {
            return None;
        }
        let start = NetHeader::SIZE + TransitionRecord::SIZE * (usize::from(number) - 1);
        self.bytes[start..].first_chunk()
    }

    /// How many arcs the transition has on the side; 0 where there is no such transition.
    #[inline]
    pub fn arc_count(&self, transition: u8, side: Side) -> u8
        ensures { result ≡ arcs_at self.now.bytes.now transition side }
    {
        self.transition(transition)
            .map_or(0, |bytes| side_count(bytes[0], side))
    }

    /// The slot of an arc, if there is such an arc. An arc is named by these three as net stores
    /// name it.
    #[inline]
    pub fn slot(&self, transition: u8, side: Side, arc: u8) -> Option<Slot>
        ensures { result ≡ slot_at self.now.bytes.now transition side arc }
    {
        let bytes = self.transition(transition)?;
        if !has_arc(bytes, side, arc) {
            return None;
        }
        let start = first_slot(side) + Slot::SIZE * (usize::from(arc) - 1);
        let (slot, _) = Slot::split(&bytes[start..])?;
        Some(slot)
    }
}

#[inline]
fn range<B: Bound>(slot: Slot) -> Range<B>
    ensures { result ≡ slot_range B.Bound.kind slot }
{
    Range {
        upper: slot.upper.map_or(B::no_limit(), |upper| {
            bound_of(i32::from(upper.number), upper.strict)
        }),
        lower: bound_of(-i32::from(slot.lower.number), slot.lower.strict),
    }
}

/// A net store of every kind of bounds: a kind without marks has none of the record's.
impl<'a, B: Bound> NetStore<B> for PackedNet<'a> {
    ghost net = { λ s. net_of B.Bound.kind s.bytes.now };

    fn keeps_limits(&self) {}

    fn places(&self) -> u8 {
        self.header().places
    }

    fn transitions(&self) -> u8 {
        self.header().transitions
    }

    fn arcs(&self, transition: u8, side: Side) -> u8 {
        self.arc_count(transition, side)
    }

    fn place(&self, transition: u8, side: Side, arc: u8) -> u8 {
        self.slot(transition, side, arc)
            .map_or(0, |slot| slot.place)
    }

    fn range(&self, transition: u8, side: Side, arc: u8) -> Range<B> {
        self.slot(transition, side, arc)
            .map_or(Range::from_zero(), |slot| range(slot))
    }
}
