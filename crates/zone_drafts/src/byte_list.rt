// A short list in fixed memory, as `ArrayVec` is, that is copied where it is used again.
ghost use Rattle.arrayvec.specs.ArrayVec.{array_vec_len};
ghost use Rattle.std.specs.Prelude.{[], ◌++◌, ◌≡◌, ◌≤◌, ◌<◌, ◌+◌, ◌∷◌, length};
ghost use Rattle.std.specs.Prelude.{IsOk, OnOk, OnErr, ◌↔◌};

use arrayvec::CapacityError;
use std::marker::Model;
use std::ops::DerefSlice;

/// At most `MOST` bytes, which lie in the value itself: places of tokens, or points.
#[derive(Clone, Copy, Debug, PartialEq, Eq)]
pub struct ByteList<const MOST: usize> {
    // the unused ones are 0
    bytes: [u8; MOST],
    len: usize,
}

impl<const MOST: usize> Model for ByteList<MOST> {
    ghost use Rattle.std.specs.Prelude.{ℕ, ◌≡◌, ◌≤◌, ◌-◌, ◌++◌, length, take, replicate};
    ghost use Rattle.std.proofs.Common.{length-take-le, sym, ap, ◌∙◌, subst};
    ghost use Rattle.arrayvec.specs.ArrayVec.{ArrayVec as Items};

    ghost Value = { Items ℕ };

    ghost view = { λ b. record { items = take b.len b.bytes } };

    ghost invariant = { λ b. (b.len ≤ MOST) × (length b.bytes ≡ MOST)
        × (b.bytes ≡ take b.len b.bytes ++ replicate (MOST - b.len) 0) };

    ghost inverse = { λ v. record {
      bytes = v.items ++ replicate (MOST - length v.items) 0;
      len = length v.items;
    } };

    ghost inverse_ok = { λ b h i. let within = subst (λ n. b.len ≤ n) (sym h.1) h.0 in record {
      bytes = (ap (λ n. take b.len b.bytes ++ replicate (MOST - n) 0)
          (length-take-le b.len b.bytes within) ∙ sym h.2) i;
      len = length-take-le b.len b.bytes within i;
    } };
}

impl<const MOST: usize> ByteList<MOST> {
    /// No bytes.
    pub fn new() -> Self
        ensures { result.items ≡ [] }
    {
        ByteList {
            bytes: [0; MOST],
            len: 0,
        }
    }

    /// How many there are.
    pub const fn len(&self) -> usize
        ensures value { result ≡ array_vec_len self.now }
        ensures fits { result ≤ MOST }
    {
        self.len
    }

    /// The bytes.
    pub fn as_slice(&self) -> &[u8]
        ensures value { result.now ≡ self.now.items }
        ensures fits { length result.now ≤ MOST }
    {
        &self.bytes[..self.len]
    }

    /// Appends one; where there is no room, it is dropped.
    pub fn push(&mut self, byte: u8)
        ensures items { array_vec_len self.old < MOST →
            self.new.items ≡ self.old.items ++ byte ∷ [] }
        ensures len { array_vec_len self.old < MOST →
            array_vec_len self.new ≡ array_vec_len self.old + 1 }
        ensures full { array_vec_len self.old ≡ MOST → self.new ≡ self.old }
    {
        let len = self.len;
        if len < MOST {
            self.bytes[len] = byte;
            self.len = len + 1;
        }
    }

    /// Appends all of them if there is room, and else changes nothing.
    pub fn try_extend_from_slice(&mut self, other: &[u8]) -> Result<(), CapacityError>
        ensures variant { IsOk result ↔ (array_vec_len self.old + length other.now ≤ MOST) }
        ensures ok { OnOk result (self.new.items ≡ self.old.items ++ other.now) }
        ensures len { OnOk result
            (array_vec_len self.new ≡ array_vec_len self.old + length other.now) }
        ensures err { OnErr result (self.new ≡ self.old) }
    {
        if MOST - self.len() < other.len() {
            return Err(CapacityError::new(()));
        }
        for byte in other {
            self.push(*byte);
        }
        Ok(())
    }
}

impl<const MOST: usize> DerefSlice for ByteList<MOST> {
    type Elem = u8;

    ghost deref_gives = { λ v xs. (xs ≡ v.items) × (length xs ≤ MOST) };

    fn deref(&self) -> &[u8] {
        self.as_slice()
    }
}
