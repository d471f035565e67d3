//! An initial token: its place and its age.
ghost use Rattle.docket_records.specs.DocketRecords.{token_of, token_spare};
ghost use Rattle.docket_records.specs.Records.{token_size};
ghost use Rattle.std.proofs.Common.{arith};

use crate::bits::bits;
use crate::record::Record;

/// What an initial token's record says.
#[derive(Clone, Copy, PartialEq, Eq, Debug, Default)]
pub struct InitialToken {
    pub place: u8,
    pub age: u16,
}

#[tactic(auto, unfolding(crate::specs::DocketRecords::token_of, crate::specs::DocketRecords::token_spare))]
impl Record for InitialToken {
    ghost SIZE = { token_size };

    ghost some_bytes = { omega arith };

    ghost spare = { token_spare };

    ghost said = { token_of };

    const SIZE: usize = 3;

    fn spare_set(bytes: &[u8]) -> bool {
        bits(bytes, 21, 3) != 0
    }

    fn fields(bytes: &[u8]) -> InitialToken {
        InitialToken {
            place: bits(bytes, 0, 6) as u8,
            age: bits(bytes, 6, 15) as u16,
        }
    }
}
