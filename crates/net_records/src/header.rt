//! The net header: how many places and transitions, and of which kind the bounds are.
ghost use Rattle.net_records.specs.NetRecords.{net_header_of, header_refusal, tested};
ghost use Rattle.std.specs.Prelude.{◌≡◌};

use crate::fault::NetRefusal;

/// Whether bounds may carry strict marks.
#[derive(Clone, Copy, PartialEq, Eq, Debug)]
pub enum NetKind {
    Plain,
    Marked,
}

/// What the net header says.
#[derive(Clone, Copy, PartialEq, Eq, Debug)]
pub struct NetHeader {
    pub kind: NetKind,
    pub places: u8,
    pub transitions: u8,
}

impl NetHeader {
    /// How many bytes the net header has.
    pub const SIZE: usize = 4;

    /// The header at the front of the bytes, or what is wrong with it, lowest number first.
    pub(crate) fn read(bytes: &[u8]) -> Result<NetHeader, NetRefusal>
        ensures { result ≡ tested (net_header_of bytes.now) (header_refusal bytes.now) }
    {
        let [first, second, third, fourth, ..] = *bytes else {
            return Err(NetRefusal::BytesMissing);
        };
        if second % 2 != 0 || third != 0 || fourth != 0 {
            return Err(NetRefusal::NotZero);
        }
        let kind = match first / 64 {
            0 | 1 => NetKind::Plain,
            2 => NetKind::Marked,
            _ => return Err(NetRefusal::OutsideLimits),
        };
        let transitions = second / 2;
        if transitions > 64 {
            return Err(NetRefusal::OutsideLimits);
        }
        Ok(NetHeader {
            kind,
            places: first % 64 + 1,
            transitions,
        })
    }
}
