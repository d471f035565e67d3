// The line that is printed for a file.
ghost use Rattle.file_rules.specs.LineTexts.{line_text};
ghost use Rattle.std.specs.Prelude.{Some};

use crate::fault::FileFault;
use docket_dues::Item;
use net_records::fault::Refusal;
use std::fmt;

/// What a file comes to.
#[derive(Clone, Copy, PartialEq, Eq, Debug)]
pub enum Line {
    /// every item is answered: how many zones are listed, and how many vouchers were taken
    Sealed { zones: u8, vouchers: u64 },
    /// the file ends before that: the first item that is due
    Due { item: Item, vouchers: u64 },
    /// a record is refused, or the call that it asks for
    Refused(FileFault),
}

impl fmt::Display for Line {
    ghost output = { λ line. Some (line_text line) };

    fn fmt<W: fmt::Write>(&self, f: &mut fmt::Formatter<W>) -> fmt::Result {
        match *self {
            Line::Sealed { zones, vouchers } => write!(f, "sealed {zones} {vouchers}"),
            Line::Due { item, vouchers } => {
                let Item {
                    zone,
                    transition,
                    matching,
                } = item;
                write!(f, "due {zone} {transition} {matching} {vouchers}")
            }
            Line::Refused(fault) => {
                let number = fault.refusal.number();
                let at = fault.at;
                write!(f, "refused {number} {at}")
            }
        }
    }
}
