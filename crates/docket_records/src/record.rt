//! Records of one size: fields of bits, and spare bits that are zero.
ghost use Rattle.docket_records.specs.Records.{placed, read_as, size_rows};
ghost use Rattle.docket_records.specs.Refusals.{entry_number_of};
ghost use Rattle.net_records.specs.Parts.{Moved, asked};
ghost use Rattle.net_records.specs.Rows.{AnswersNumber, first_number};
ghost use Rattle.std.specs.Prelude.{◌≡◌, ◌<◌, ℕ, Bool, List, take};

use crate::fault::{EntryFault, EntryRefusal};
use net_records::fault::Fault;
use net_records::reader::{Part, Reader};

/// A record of one size.
pub trait Record: Sized {
    ghost SIZE: { ℕ };

    ghost some_bytes: { 0 < SIZE };

    // whether bytes have a spare bit set
    ghost spare: { List ℕ → Bool };

    // what their fields say
    ghost said: { List ℕ → Self };

    /// How many bytes a record has.
    const SIZE: usize;

    /// Whether a spare bit is set.
    fn spare_set(bytes: &[u8]) -> bool
        ensures { result ≡ spare bytes.now };

    /// What the fields say.
    fn fields(bytes: &[u8]) -> Self
        ensures { result ≡ said bytes.now };

    /// The record that the bytes are, or what is wrong with them, lowest number first.
    final fn read(bytes: &[u8]) -> Result<Self, EntryRefusal>
        ensures answer { result ≡ read_as SIZE spare said bytes.now }
        ensures number { AnswersNumber entry_number_of
            (first_number (size_rows SIZE spare bytes.now)) result }
    {
        if bytes.len() != Self::SIZE {
            return Err(EntryRefusal::WrongLength);
        }
        if Self::spare_set(bytes) {
            return Err(EntryRefusal::NotZero);
        }
        Ok(Self::fields(bytes))
    }

    /// The record that comes next. Where it is refused, its fault has its number.
    final fn next(reader: &mut Reader<'_>) -> Result<Self, EntryFault>
        ensures answer { result ≡ placed reader.old.next
            (read_as SIZE spare said (take SIZE reader.old.rest)) }
        ensures moved { Moved SIZE reader.old result reader.new }
        ensures left { reader.new ≡ asked SIZE reader.old }
    {
        let Part { bytes, at } = reader.part(Self::SIZE)?;
        Self::read(bytes).map_err(|refusal| Fault { refusal, at })
    }
}
