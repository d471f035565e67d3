// The line of a file in words.
ghost use Rattle.file_words.specs.Lines.{line_words};
ghost use Rattle.std.specs.Prelude.{Some};

use crate::item::ItemWords;
use file_rules::Line;
use net_words::Counted;
use std::fmt;

/// The line that a file comes to.
#[derive(Clone, Copy)]
pub struct LineWords(pub Line);

impl fmt::Display for LineWords {
    ghost output = { λ line. Some (line_words line.0) };

    fn fmt<W: fmt::Write>(&self, f: &mut fmt::Formatter<W>) -> fmt::Result {
        match self.0 {
            Line::Sealed { zones, vouchers } => {
                let zones = Counted {
                    count: u64::from(zones),
                    name: "zone",
                };
                let vouchers = Counted {
                    count: vouchers,
                    name: "voucher",
                };
                write!(f, "sealed: {zones}, {vouchers}")
            }
            Line::Due { item, vouchers } => {
                let item = ItemWords(item);
                let vouchers = Counted {
                    count: vouchers,
                    name: "voucher",
                };
                write!(f, "due: {item}, after {vouchers}")
            }
            Line::Refused(fault) => write!(f, "refused {fault}"),
        }
    }
}
