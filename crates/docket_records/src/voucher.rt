//! A voucher: that an item is void, or which listed zone vouches for it and through which partners.
ghost use Rattle.docket_records.specs.Records.{voucher_size};
ghost use Rattle.docket_records.specs.Vouchers.{partner_at, some_set, unused_set, voucher_of};
ghost use Rattle.docket_records.specs.Vouchers.{voucher_spare};
ghost use Rattle.std.specs.Prelude.{◌≡◌};
ghost use Rattle.std.proofs.Common.{arith};

use crate::bits::bits;
use crate::record::Record;

/// The fields as they stand and not an enum: those that a voucher does not use are tested too.
#[derive(Clone, Copy, PartialEq, Eq, Debug)]
pub struct Voucher {
    pub void: bool,
    pub zone: u8,
    /// for each token of the listed zone a token of the item, both numbered from 1
    pub partners: [u8; 8],
}

/// The partner of a token of the listed zone, here counted from 0.
fn partner(bytes: &[u8], i: u8) -> u8
    ensures { result ≡ partner_at bytes.now i }
{
    bits(bytes, 7 + 4 * usize::from(i), 4) as u8
}

#[tactic(auto, unfolding(crate::specs::Vouchers::voucher_of, crate::specs::Vouchers::voucher_spare))]
impl Record for Voucher {
    ghost SIZE = { voucher_size };

    ghost some_bytes = { omega arith };

    ghost spare = { voucher_spare };

    ghost said = { voucher_of };

    const SIZE: usize = 6;

    fn spare_set(bytes: &[u8]) -> bool {
        bits(bytes, 39, 9) != 0
    }

    fn fields(bytes: &[u8]) -> Voucher {
        Voucher {
            void: bits(bytes, 0, 1) == 1,
            zone: bits(bytes, 1, 6) as u8,
            // not by `map`: of an array of eight it leaves more than a proof's search goes through
            partners: [
                partner(bytes, 0),
                partner(bytes, 1),
                partner(bytes, 2),
                partner(bytes, 3),
                partner(bytes, 4),
                partner(bytes, 5),
                partner(bytes, 6),
                partner(bytes, 7),
            ],
        }
    }
}

fn some_set(numbers: &[u8]) -> bool
    ensures { result ≡ some_set numbers.now }
{
    numbers.iter().any(|number| *number != 0)
}

impl Voucher {
    /// Whether a field that it does not use is not zero. Its listed zone has so many tokens; one
    /// for a zone outside the list uses all eight partners.
    pub fn unused_set(&self, tokens: u8) -> bool
        ensures { result ≡ unused_set self.now tokens }
    {
        if self.void {
            self.zone != 0 || some_set(&self.partners)
        } else {
            self.partners
                .get(usize::from(tokens)..)
                .is_some_and(|unused| some_set(unused))
        }
    }
}
