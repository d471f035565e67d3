//! The docket header: how many initial tokens and listed zones follow.
ghost use Rattle.docket_records.specs.DocketRecords.{docket_header_of, header_spare};
ghost use Rattle.docket_records.specs.Records.{header_size};
ghost use Rattle.std.proofs.Common.{arith};

use crate::bits::bits;
use crate::record::Record;

/// What the docket header says.
#[derive(Clone, Copy, PartialEq, Eq, Debug)]
pub struct DocketHeader {
    pub initial: u8,
    pub zones: u8,
}

#[tactic(auto, unfolding(crate::specs::DocketRecords::docket_header_of, crate::specs::DocketRecords::header_spare))]
impl Record for DocketHeader {
    ghost SIZE = { header_size };

    ghost some_bytes = { omega arith };

    ghost spare = { header_spare };

    ghost said = { docket_header_of };

    const SIZE: usize = 4;

    fn spare_set(bytes: &[u8]) -> bool {
        bits(bytes, 10, 22) != 0
    }

    fn fields(bytes: &[u8]) -> DocketHeader {
        DocketHeader {
            initial: bits(bytes, 0, 4) as u8,
            zones: bits(bytes, 4, 6) as u8,
        }
    }
}
