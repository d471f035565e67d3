//! The ages that an arc's range allows, in words.
ghost use Rattle.net_words.specs.Ages.{end_text, ages_text};
ghost use Rattle.std.specs.Prelude.{Some};

use net_records::slot::{End, Slot};
use std::fmt;

/// One end of a range, and the word for its mark.
#[derive(Clone, Copy)]
struct EndWords {
    mark: &'static str,
    end: End,
}

/// The range of a slot.
#[derive(Clone, Copy)]
pub struct Ages(pub Slot);

impl fmt::Display for EndWords {
    ghost output = { λ e. Some (end_text e.mark.now e.end) };

    fn fmt<W: fmt::Write>(&self, f: &mut fmt::Formatter<W>) -> fmt::Result {
        let mark = self.mark;
        let number = self.end.number;
        if self.end.strict {
            write!(f, "{mark} {number}")
        } else {
            write!(f, "{number}")
        }
    }
}

impl fmt::Display for Ages {
    ghost output = { λ ages. Some (ages_text ages.0) };

    fn fmt<W: fmt::Write>(&self, f: &mut fmt::Formatter<W>) -> fmt::Result {
        let slot = self.0;
        let least = EndWords {
            mark: "above",
            end: slot.lower,
        };
        match slot.upper {
            None if slot.lower.strict => write!(f, "age {least}, no upper limit"),
            None if slot.lower.number == 0 => f.write_str("any age"),
            None => write!(f, "age {least} or more"),
            Some(upper) if upper == slot.lower && !upper.strict => write!(f, "age {least}"),
            Some(upper) => {
                let most = EndWords {
                    mark: "below",
                    end: upper,
                };
                write!(f, "age {least} to {most}")
            },
        }
    }
}
