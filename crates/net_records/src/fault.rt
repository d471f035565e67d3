//! Faults of records: what is wrong, and in which record.
ghost use Rattle.net_records.specs.Refusals.{refusal_number, refusal_text, located};
ghost use Rattle.net_records.specs.declared.fault.NetRefusal.TheVariants.{BytesMissing};
ghost use Rattle.std.specs.Prelude.{◌≡◌, ℕ, List, Some, refl};

use std::fmt;

/// Why a record is refused. Each refusal has a number and a text.
pub trait Refusal: Copy + fmt::Display {
    ghost number_of: { Self → ℕ };

    ghost text_of: { Self → List ℕ };

    ghost missing: { Self };

    /// The refusal's number.
    fn number(self) -> u8
        ensures { result ≡ number_of self };

    /// The refusal of a record whose bytes are not there.
    fn missing() -> Self
        ensures { result ≡ missing };

    ghost displays: { (r : Self) → Self.output r ≡ Some (text_of r) };
}

/// Why a net record is refused, by number.
#[derive(Clone, Copy, PartialEq, Eq, Debug)]
pub enum NetRefusal {
    BytesMissing = 10,
    /// a spare or unused field
    NotZero = 11,
    /// a count, kind or range end
    OutsideLimits = 12,
    NoSuchPlace = 13,
    MarkUnderPlain = 14,
    /// the bounds of a range sum below zero
    EmptyRange = 15,
}

impl Refusal for NetRefusal {
    ghost number_of = { refusal_number };

    ghost text_of = { refusal_text };

    ghost missing = { BytesMissing };

    ghost displays = { λ r. refl };

    fn number(self) -> u8 {
        self as u8
    }

    fn missing() -> NetRefusal {
        NetRefusal::BytesMissing
    }
}

impl fmt::Display for NetRefusal {
    ghost output = { λ r. Some (refusal_text r) };

    fn fmt<W: fmt::Write>(&self, f: &mut fmt::Formatter<W>) -> fmt::Result {
        f.write_str(match self {
            NetRefusal::BytesMissing => "bytes are missing",
            NetRefusal::NotZero => "a spare or unused field is not zero",
            NetRefusal::OutsideLimits => "a count, kind or range end is outside its limits",
            NetRefusal::NoSuchPlace => "a place is not in the net",
            NetRefusal::MarkUnderPlain => "a strict mark under plain kind",
            NetRefusal::EmptyRange => "the bounds of a range sum below zero",
        })
    }
}

/// A refusal, and which record has it. Records are counted from 0.
#[derive(Clone, Copy, PartialEq, Eq, Debug)]
pub struct Fault<R> {
    pub refusal: R,
    pub at: usize,
}

/// A refusal of a net record, with its record.
pub type NetFault = Fault<NetRefusal>;

impl<R: Refusal> fmt::Display for Fault<R> {
    ghost output = { λ fault. Some (located R.number_of R.text_of fault) };

    fn fmt<W: fmt::Write>(&self, f: &mut fmt::Formatter<W>) -> fmt::Result {
        let number = self.refusal.number();
        let at = self.at;
        let refusal = self.refusal;
        write!(f, "{number} in record {at}: {refusal}")
    }
}

/// The bytes end before the record does.
#[derive(Clone, Copy, PartialEq, Eq, Debug)]
pub struct Missing {
    pub at: usize,
}

impl<R: Refusal> From<Missing> for Fault<R> {
    ghost from_gives = { λ m r. r ≡ record { refusal = R.missing; at = m.at } };

    fn from(m: Missing) -> Fault<R> {
        Fault {
            refusal: R::missing(),
            at: m.at,
        }
    }
}
