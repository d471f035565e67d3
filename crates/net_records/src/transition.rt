//! Transition records: counts, and four slots a side.
ghost use Rattle.net_records.specs.NetBytes.{side_count};
ghost use Rattle.net_records.specs.NetRecords.{record_rows, slot_side, some_slot, tested};
ghost use Rattle.net_records.specs.NetRecords.{transition_record, transition_refusal};
ghost use Rattle.net_records.specs.Rows.{first_refusal};
ghost use Rattle.net_records.specs.Sizes.{transition_size};
ghost use Rattle.net_records.specs.declared.fault.NetRefusal.TheVariants.{BytesMissing};
ghost use Rattle.net_records.specs.declared.slot.Slot.{Slot};
ghost use Rattle.nets.specs.declared.side.Side.{Side};
ghost use Rattle.std.specs.Prelude.{◌≡◌, Bool, [], ◌∷◌, length, nat_lt, if◌then◌else◌, Option, Ok};
ghost use Rattle.std.specs.Prelude.{Err};

use crate::fault::NetRefusal;
use crate::header::{NetHeader, NetKind};
use crate::slot::Slot;
use nets::Side;

/// What a transition record says.
#[derive(Clone, Copy)]
pub struct TransitionRecord {
    pub inputs: u8,
    pub outputs: u8,
    pub spare: u8,
    /// the record's eight, used or not: the unused ones are tested too
    pub slots: [Slot; 8],
}

/// How many arcs a side has, by the first byte of the record.
#[inline]
pub(crate) fn side_count(counts: u8, side: Side) -> u8
    ensures { result ≡ side_count side (transition_record (counts ∷ [])) }
{
    match side {
        Side::Input => counts / 32,
        Side::Output => counts / 4 % 8,
    }
}

impl TransitionRecord {
    /// How many bytes a transition record has.
    pub const SIZE: usize = 1 + 8 * Slot::SIZE;

    /// The record at the front of the bytes.
    fn read(bytes: &[u8]) -> Result<TransitionRecord, NetRefusal>
        ensures { result ≡ (if nat_lt (length bytes.now) transition_size
            then Err BytesMissing else Ok (transition_record bytes.now)) }
    {
        let (counts, mut rest) = bytes.split_first().ok_or(NetRefusal::BytesMissing)?;
        let mut slots = [Slot::BLANK; 8];
        for slot in &mut slots {
            (*slot, rest) = Slot::split(rest).ok_or(NetRefusal::BytesMissing)?;
        }
        Ok(TransitionRecord {
            inputs: side_count(*counts, Side::Input),
            outputs: side_count(*counts, Side::Output),
            spare: counts % 4,
            slots,
        })
    }

    /// Whose slot `i` is, counted from 0, where it is used.
    fn slot_side(&self, i: usize) -> Option<Side>
        ensures { result ≡ slot_side self.now i }
    {
        if i < 4 {
            (i < usize::from(self.inputs)).then_some(Side::Input)
        } else {
            (i < 4 + usize::from(self.outputs)).then_some(Side::Output)
        }
    }

    /// Whether the test holds of some slot; it is told whose the slot is, where it is used.
    fn some_slot<F: Fn(Option<Side>, Slot) -> bool>(&self, test: F) -> bool
        requires { F.IsAlwaysCallable test }
        ensures { (p : Option Side → Slot → Bool) → ((side : Option Side) (s : Slot) (b : Bool) →
            F.post test side s b → b ≡ p side s) → result ≡ some_slot p self.now }
    {
        // Numbers beside the slots, since an `any` after `enumerate` has no law to prove it by.
        (0..8)
            .zip(self.slots.iter())
            .any(|(i, slot)| test(self.slot_side(i), *slot))
    }

    /// What is wrong with the record, lowest number first.
    fn check(&self, header: NetHeader) -> Result<(), NetRefusal>
        ensures { result ≡ tested tt (first_refusal (record_rows header self.now)) }
    {
        if self.spare != 0
            || self.some_slot(|side, slot| match side {
                Some(_) => slot.has_stray_bit(),
                None => !slot.is_unused(),
            })
        {
            return Err(NetRefusal::NotZero);
        }
        if self.inputs > 4 || self.outputs > 4 {
            return Err(NetRefusal::OutsideLimits);
        }
        if self.some_slot(|side, slot| side.is_some() && header.places <= slot.place) {
            return Err(NetRefusal::NoSuchPlace);
        }
        let plain = header.kind == NetKind::Plain;
        if self.some_slot(|side, slot| side.is_some() && plain && slot.has_mark()) {
            return Err(NetRefusal::MarkUnderPlain);
        }
        if self.some_slot(|side, slot| side.is_some() && slot.is_empty()) {
            return Err(NetRefusal::EmptyRange);
        }
        Ok(())
    }

    /// The same of the record at the front of the bytes.
    pub(crate) fn test(bytes: &[u8], header: NetHeader) -> Result<(), NetRefusal>
        ensures { result ≡ tested tt (transition_refusal header bytes.now) }
    {
        TransitionRecord::read(bytes)?.check(header)
    }
}
