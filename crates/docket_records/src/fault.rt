//! Faults of the records after the net: what is wrong, and in which record.
ghost use Rattle.docket_records.specs.Refusals.{entry_number_of, entry_text};
ghost use Rattle.docket_records.specs.declared.fault.EntryRefusal.TheVariants.{WrongLength};
ghost use Rattle.std.specs.Prelude.{Some, refl};

use net_records::fault::{Fault, Refusal};
use std::fmt;

/// By number; the lowest number that holds counts.
#[derive(Clone, Copy, PartialEq, Eq, Debug)]
pub enum EntryRefusal {
    WrongLength = 20,
    /// a spare or unused field, or a mark on no limit
    NotZero = 21,
    TooMany = 22,
    NoSuchPlace = 23,
    MarkUnderPlain = 24,
    /// some closed walk sums below zero
    Inconsistent = 25,
}

impl Refusal for EntryRefusal {
    ghost number_of = { entry_number_of };

    ghost text_of = { entry_text };

    ghost missing = { WrongLength };

    ghost displays = { λ r. refl };

    fn number(self) -> u8 {
        self as u8
    }

    fn missing() -> EntryRefusal {
        EntryRefusal::WrongLength
    }
}

impl fmt::Display for EntryRefusal {
    ghost output = { λ r. Some (entry_text r) };

    fn fmt<W: fmt::Write>(&self, f: &mut fmt::Formatter<W>) -> fmt::Result {
        f.write_str(match self {
            EntryRefusal::WrongLength => "a record has the wrong length",
            EntryRefusal::NotZero => "a spare or unused field is not zero, or no limit has a mark",
            EntryRefusal::TooMany => "more than 8 tokens",
            EntryRefusal::NoSuchPlace => "a place is not in the net",
            EntryRefusal::MarkUnderPlain => "a strict mark under plain kind",
            EntryRefusal::Inconsistent => "no marking satisfies the zone",
        })
    }
}

/// Records are counted from 0 through the whole file.
pub type EntryFault = Fault<EntryRefusal>;
