// A file made of its parts, for the line of two carriers, and the line that it is to have.
use file_check::report;
use std::alloc::{AllocError, Global};
use std::process::Abort;
use test_records::net_bytes::one_transition;
use test_records::zone_bytes::{Listed, NO_LIMIT, record};

// The first bytes of a zone's record, and two of its bounds; the others have no limit.
#[derive(Clone, Copy)]
pub struct Zone {
    pub header: [u8; 3],
    pub listed: [Listed; 2],
}

// The net header is given without its kind.
#[derive(Clone, Copy)]
pub struct File<'e> {
    pub net: [u8; 4],
    pub taken: [u8; 5],
    pub given: [u8; 5],
    pub docket: [u8; 4],
    pub tokens: &'e [[u8; 3]],
    pub target: Zone,
    pub zones: [Zone; 3],
    pub vouchers: &'e [[u8; 6]],
    // no more than its first bytes, so many
    pub length: usize,
}

// Token 1 may be of any age.
pub const ANY_AGE: [Listed; 2] = [(1, 0, NO_LIMIT), (0, 1, NO_LIMIT)];

// Two tokens in place 1, in places 1 and 0, in place 0.
pub const BOTH_IN_1: Zone = Zone {
    header: [2, 0x04, 0x10],
    listed: ANY_AGE,
};

pub const ONE_EACH: Zone = Zone {
    header: [2, 0x04, 0],
    listed: ANY_AGE,
};

pub const BOTH_IN_0: Zone = Zone {
    header: [2, 0, 0],
    listed: ANY_AGE,
};

// Each names a listed zone and pairs 1 with 1 and 2 with 2.
pub const ZONE_1: [u8; 6] = [0x02, 0x24, 0, 0, 0, 0];

pub const ZONE_2: [u8; 6] = [0x04, 0x24, 0, 0, 0, 0];

pub const ZONE_3: [u8; 6] = [0x06, 0x24, 0, 0, 0, 0];

pub const VOUCHERS: [[u8; 6]; 10] = [
    ZONE_1, ZONE_1, ZONE_1, ZONE_2, ZONE_2, ZONE_2, ZONE_2, ZONE_3, ZONE_3, ZONE_3,
];

// From place 0, age 1 to 2, into place 1 at age 0; a token in place 0 at first. Records: 0 and 1 of
// the net, 2 the docket header, 3 the initial token, 4 the target, 5 to 7 the zones, 8 to 17 the
// vouchers.
pub const CARRIERS: File<'static> = File {
    net: [0x01, 0x02, 0x00, 0x00],
    taken: [0x00, 0x00, 0x04, 0x00, 0x04],
    given: [0x04, 0x00, 0x00, 0x00, 0x00],
    docket: [0x10, 0xc0, 0x00, 0x00],
    tokens: &[[0; 3]],
    target: BOTH_IN_1,
    zones: [BOTH_IN_1, ONE_EACH, BOTH_IN_0],
    vouchers: &VOUCHERS,
    length: usize::MAX,
};

impl Zone {
    fn bytes(&self, heap: Global) -> Result<Vec<u8>, AllocError> {
        record(heap, &self.header, &self.listed)
    }
}

impl<'e> File<'e> {
    // By the kind's two bits of the net header.
    fn bytes(&self, heap: Global, kind: u8) -> Result<Vec<u8>, AllocError> {
        let [first, second, third, fourth] = self.net;
        let header = [first | kind, second, third, fourth];
        let mut bytes = one_transition(heap, &header, self.taken, self.given)?;
        bytes.extend_from_slice(&self.docket)?;
        for token in self.tokens {
            bytes.extend_from_slice(token)?;
        }
        bytes.extend_from_slice(&self.target.bytes(heap)?)?;
        for zone in self.zones {
            bytes.extend_from_slice(&zone.bytes(heap)?)?;
        }
        for voucher in self.vouchers {
            bytes.extend_from_slice(voucher)?;
        }
        bytes.truncate(self.length);
        Ok(bytes)
    }

    fn check_under(
        &self,
        rt: &impl Abort,
        heap: Global,
        kind: u8,
        line: &str,
    ) -> Result<(), AllocError> {
        let printed = report(&self.bytes(heap, kind)?).to_string(heap)?;
        assert!(rt;
            printed.as_str() == line,
            "{printed} under {kind} for {line}"
        );
        Ok(())
    }

    // The lines under plain kind, said or not, and under marked kind.
    pub fn gives_each(
        &self,
        rt: &impl Abort,
        heap: Global,
        plain: &str,
        marked: &str,
    ) -> Result<(), AllocError> {
        self.check_under(rt, heap, 0x00, plain)?;
        self.check_under(rt, heap, 0x40, plain)?;
        self.check_under(rt, heap, 0x80, marked)
    }

    pub fn gives(&self, rt: &impl Abort, heap: Global, line: &str) -> Result<(), AllocError> {
        self.gives_each(rt, heap, line, line)
    }

    // At this record, by this number.
    pub fn refuses(
        &self,
        rt: &impl Abort,
        heap: Global,
        number: u8,
        at: u8,
    ) -> Result<(), AllocError> {
        let line = format!(in heap; "refused {number} {at}")?;
        self.gives(rt, heap, &line)
    }
}
