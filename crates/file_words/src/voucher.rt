// A voucher in words: the item that is due, and what the voucher claims.
ghost use Rattle.file_words.specs.Items.{claim_text, voucher_line, voucher_text};
ghost use Rattle.docket_records.specs.Vouchers.{voucher_of};
ghost use Rattle.std.specs.Prelude.{◌≡◌, ◌++◌, Some, string_bytes, OnOk};

use crate::item::{DueWords, Spaced};
use bounds::Bound;
use docket_dues::Item;
use docket_records::record::Record;
use docket_records::voucher::Voucher;
use file_check::DocketFile;
use std::alloc::AllocError;
use std::fmt;

// A claim with so many partners.
#[derive(Clone, Copy)]
struct ClaimWords {
    voucher: Voucher,
    used: u8,
}

impl fmt::Display for ClaimWords {
    ghost output = { λ c. Some (claim_text c.voucher c.used) };

    fn fmt<W: fmt::Write>(&self, f: &mut fmt::Formatter<W>) -> fmt::Result {
        let voucher = self.voucher;
        if voucher.void {
            return f.write_str("void");
        }
        let zone = voucher.zone;
        let partners = Spaced(
            voucher
                .partners
                .get(..usize::from(self.used))
                .unwrap_or(&voucher.partners),
        );
        write!(f, "zone {zone}, tokens{partners}")
    }
}

// Vouchers are numbered from 1.
#[derive(Clone, Copy)]
struct VoucherWords {
    number: u64,
    due: Option<Item>,
    claim: ClaimWords,
}

impl fmt::Display for VoucherWords {
    ghost output = { λ v. Some (voucher_text v.number v.due v.claim.voucher v.claim.used) };

    fn fmt<W: fmt::Write>(&self, f: &mut fmt::Formatter<W>) -> fmt::Result {
        let number = self.number;
        let due = DueWords(self.due);
        let claim = self.claim;
        write!(f, "voucher {number} for {due}: {claim}")
    }
}

// The voucher of these bytes, before the docket of the file is given it.
pub(crate) fn write_voucher<B: Bound>(
    text: &mut String,
    file: &DocketFile<'_, '_, B>,
    bytes: &[u8],
) -> Result<(), AllocError>
    ensures { OnOk result
        (string_bytes text.new
        ≡ string_bytes text.old ++ voucher_line file.now.world.state (voucher_of bytes.now)) }
{
    let voucher = Voucher::fields(bytes);
    let words = VoucherWords {
        number: file.taken().saturating_add(1),
        due: file.next_due(),
        claim: ClaimWords {
            voucher,
            used: file.partners_used(&voucher),
        },
    };
    writeln!(text, "{words}")
}
