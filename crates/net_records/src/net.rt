//! The test of net records: record by record, and nothing past the last is read.
ghost use Rattle.net_records.specs.NetRecords.{FaultNumbered, front_header, header_fault};
ghost use Rattle.net_records.specs.NetRecords.{net_fault};
ghost use Rattle.net_records.specs.NetRecords.{tested, transition_fault};
ghost use Rattle.net_records.specs.Parts.{Moved};
ghost use Rattle.net_records.specs.Sizes.{header_size, transition_size};
ghost use Rattle.std.specs.Prelude.{◌≡◌, IfErr};

use crate::fault::{Fault, NetFault};
use crate::header::NetHeader;
use crate::reader::{Part, Reader};
use crate::transition::TransitionRecord;

/// The net header, which is the reader's first record.
fn read_header(reader: &mut Reader<'_>) -> Result<NetHeader, NetFault>
    requires { reader.old.next ≡ 0 }
    ensures answer { result ≡ tested (front_header reader.old.rest) (header_fault reader.old.rest) }
    ensures moved { Moved header_size reader.old result reader.new }
{
    let Part { bytes, at } = reader.part(NetHeader::SIZE)?;
    NetHeader::read(bytes).map_err(|refusal| Fault { refusal, at })
}

/// One transition, which is the reader's next record.
fn check_transition(reader: &mut Reader<'_>, header: NetHeader) -> Result<(), NetFault>
    ensures answer { result ≡ tested tt (transition_fault header reader.old.next reader.old.rest) }
    ensures moved { Moved transition_size reader.old result reader.new }
{
    let Part { bytes, at } = reader.part(TransitionRecord::SIZE)?;
    TransitionRecord::test(bytes, header).map_err(|refusal| Fault { refusal, at })
}

/// Tests the net records at the front of the bytes: their header, or the first fault.
pub fn check_net(bytes: &[u8]) -> Result<NetHeader, NetFault>
    ensures answer { result ≡ tested (front_header bytes.now) (net_fault bytes.now) }
    ensures number { IfErr result (λ fault. FaultNumbered bytes.now fault) }
{
    let mut reader = Reader::new(bytes);
    let header = read_header(&mut reader)?;
    for _ in 0..header.transitions {
        check_transition(&mut reader, header)?;
    }
    Ok(header)
}
