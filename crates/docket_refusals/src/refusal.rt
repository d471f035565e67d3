// The refusals of a docket's calls.
ghost use Rattle.docket_records.specs.declared.fault.EntryRefusal.TheVariants.{WrongLength};
ghost use Rattle.docket_refusals.specs.CallRefusals.{call_refusal_number, call_refusal_text};
ghost use Rattle.docket_refusals.specs.declared.refusal.CallRefusal.TheVariants.{Entry, Objected};
ghost use Rattle.std.specs.Prelude.{◌≡◌, Some, refl};

use docket_records::fault::EntryRefusal;
use net_records::fault::Refusal;
use std::fmt;
use zone_pages::Objection;

/// By number; the lowest number that holds counts, after 40, 41 and 42. Each says whose it is to
/// mend.
#[derive(Clone, Copy, PartialEq, Eq, Debug)]
pub enum CallRefusal {
    /// 20 to 25: what is wrong with a record, or with the initial tokens. Whoever wrote them.
    Entry(EntryRefusal),
    /// 26: the initial marking satisfies the listed zone. Whoever chose the zones.
    Covered,
    /// 27: void is claimed for an item that is not void. Whoever wrote the voucher.
    NotVoid,
    /// 28: a void item is given a pairing. Whoever wrote the voucher.
    VoidItem,
    /// 29: the voucher names a zone outside the list. Whoever wrote the voucher.
    NoSuchZone,
    /// 30 to 32: what stands against the zone that a voucher names. Whoever wrote the voucher.
    Objected(Objection),
    /// 40: the call does not belong to this stage. The calling program.
    WrongStage,
    /// 41: lent memory is not of the stated length, or initial places and ages differ in number.
    /// The calling program.
    WrongMemory,
    /// 42: a 64th zone. The calling program.
    FullList,
}

impl From<EntryRefusal> for CallRefusal {
    ghost from_gives = { λ e r. r ≡ Entry e };

    fn from(refusal: EntryRefusal) -> CallRefusal {
        CallRefusal::Entry(refusal)
    }
}

impl From<Objection> for CallRefusal {
    ghost from_gives = { λ o r. r ≡ Objected o };

    fn from(objection: Objection) -> CallRefusal {
        CallRefusal::Objected(objection)
    }
}

impl Refusal for CallRefusal {
    ghost number_of = { call_refusal_number };

    ghost text_of = { call_refusal_text };

    ghost missing = { Entry WrongLength };

    ghost displays = { λ r. refl };

    fn number(self) -> u8 {
        match self {
            CallRefusal::Entry(refusal) => refusal.number(),
            CallRefusal::Covered => 26,
            CallRefusal::NotVoid => 27,
            CallRefusal::VoidItem => 28,
            CallRefusal::NoSuchZone => 29,
            CallRefusal::Objected(objection) => objection.number(),
            CallRefusal::WrongStage => 40,
            CallRefusal::WrongMemory => 41,
            CallRefusal::FullList => 42,
        }
    }

    fn missing() -> CallRefusal {
        CallRefusal::Entry(EntryRefusal::missing())
    }
}

impl fmt::Display for CallRefusal {
    ghost output = { λ r. Some (call_refusal_text r) };

    fn fmt<W: fmt::Write>(&self, f: &mut fmt::Formatter<W>) -> fmt::Result {
        f.write_str(match self {
            CallRefusal::Entry(refusal) => return write!(f, "{refusal}"),
            CallRefusal::Covered => "the initial marking satisfies the zone",
            CallRefusal::NotVoid => "the item is not void",
            CallRefusal::VoidItem => "the item is void",
            CallRefusal::NoSuchZone => "there is no listed zone of this number",
            CallRefusal::Objected(objection) => return write!(f, "{objection}"),
            CallRefusal::WrongStage => "the call does not belong to this stage",
            CallRefusal::WrongMemory =>
                "lent memory is not of its length, or initial places and ages differ in number",
            CallRefusal::FullList => "there are 63 listed zones already",
        })
    }
}
