// Why a file is refused, and at which record.
ghost use Rattle.file_rules.specs.FileRefusals.{file_number, file_text, file_fault_text};
ghost use Rattle.file_rules.specs.declared.fault.FileRefusal.TheVariants.{Net, Call};
ghost use Rattle.docket_refusals.specs.declared.refusal.CallRefusal.TheVariants.{Entry};
ghost use Rattle.docket_records.specs.declared.fault.EntryRefusal.TheVariants.{WrongLength};
ghost use Rattle.std.specs.Prelude.{◌≡◌, Some, refl};

use docket_records::fault::EntryFault;
use docket_refusals::CallRefusal;
use net_records::fault::{Missing, NetFault, NetRefusal, Refusal};
use std::fmt;

/// Why a record of a file is refused.
#[derive(Clone, Copy, PartialEq, Eq, Debug)]
pub enum FileRefusal {
    /// 10 to 15: what is wrong with a record of the net
    Net(NetRefusal),
    /// 20 to 42: what is wrong with a later record, or with the call that it asks for
    Call(CallRefusal),
}

impl Refusal for FileRefusal {
    ghost number_of = { file_number };

    ghost text_of = { file_text };

    ghost missing = { Call (Entry WrongLength) };

    ghost displays = { λ r. refl };

    fn number(self) -> u8 {
        match self {
            FileRefusal::Net(refusal) => refusal.number(),
            FileRefusal::Call(refusal) => refusal.number(),
        }
    }

    fn missing() -> FileRefusal {
        FileRefusal::Call(CallRefusal::missing())
    }
}

impl fmt::Display for FileRefusal {
    ghost output = { λ r. Some (file_text r) };

    fn fmt<W: fmt::Write>(&self, f: &mut fmt::Formatter<W>) -> fmt::Result {
        match self {
            FileRefusal::Net(refusal) => write!(f, "{refusal}"),
            FileRefusal::Call(refusal) => write!(f, "{refusal}"),
        }
    }
}

/// A refusal, and which record has it: counted from 0 through the whole file.
#[derive(Clone, Copy, PartialEq, Eq, Debug)]
pub struct FileFault {
    /// why
    pub refusal: FileRefusal,
    /// the number of the record
    pub at: usize,
}

impl From<NetFault> for FileFault {
    ghost from_gives = { λ f r. r ≡ record { refusal = Net f.refusal; at = f.at } };

    fn from(fault: NetFault) -> FileFault {
        FileFault {
            refusal: FileRefusal::Net(fault.refusal),
            at: fault.at,
        }
    }
}

impl From<EntryFault> for FileFault {
    ghost from_gives = { λ f r. r ≡ record { refusal = Call (Entry f.refusal); at = f.at } };

    fn from(fault: EntryFault) -> FileFault {
        FileFault {
            refusal: FileRefusal::Call(CallRefusal::Entry(fault.refusal)),
            at: fault.at,
        }
    }
}

impl From<Missing> for FileFault {
    ghost from_gives = { λ m r. r ≡ record { refusal = Call (Entry WrongLength); at = m.at } };

    fn from(missing: Missing) -> FileFault {
        FileFault {
            refusal: FileRefusal::missing(),
            at: missing.at,
        }
    }
}

impl fmt::Display for FileFault {
    ghost output = { λ fault. Some (file_fault_text fault) };

    fn fmt<W: fmt::Write>(&self, f: &mut fmt::Formatter<W>) -> fmt::Result {
        let number = self.refusal.number();
        let at = self.at;
        let refusal = self.refusal;
        write!(f, "{number} in record {at}: {refusal}")
    }
}
