// An item that is due, in words.
ghost use Rattle.file_words.specs.Items.{before_text, due_text, item_text, numbers_text};
ghost use Rattle.std.specs.Prelude.{Some};

use docket_dues::Item;
use std::fmt;
use zone_matchings::digits;

/// Numbers, each after a space.
#[derive(Clone, Copy)]
pub struct Spaced<'a>(pub &'a [u8]);

impl<'a> fmt::Display for Spaced<'a> {
    ghost output = { λ s. Some (numbers_text s.0.now) };

    fn fmt<W: fmt::Write>(&self, f: &mut fmt::Formatter<W>) -> fmt::Result {
        for at in 0..self.0.len() {
            let number = self.0[at];
            write!(f, " {number}")?;
        }
        Ok(())
    }
}

// What comes next of the zone of an item: transition 0 is a delay.
#[derive(Clone, Copy)]
struct Before {
    transition: u8,
    matching: u16,
}

impl fmt::Display for Before {
    ghost output = { λ b. Some (before_text b.transition b.matching) };

    fn fmt<W: fmt::Write>(&self, f: &mut fmt::Formatter<W>) -> fmt::Result {
        let transition = self.transition;
        if transition == 0 {
            return f.write_str("a delay");
        }
        let digits = digits(self.matching);
        let spaced = Spaced(&digits);
        write!(f, "transition {transition} by matching{spaced}")
    }
}

/// An item that is due.
#[derive(Clone, Copy)]
pub struct ItemWords(pub Item);

impl fmt::Display for ItemWords {
    ghost output = { λ i. Some (item_text i.0) };

    fn fmt<W: fmt::Write>(&self, f: &mut fmt::Formatter<W>) -> fmt::Result {
        let Item {
            zone,
            transition,
            matching,
        } = self.0;
        if zone == 0 {
            return f.write_str("the target");
        }
        let before = Before {
            transition,
            matching,
        };
        write!(f, "zone {zone} before {before}")
    }
}

// The item that a voucher is for; one can follow the last item.
#[derive(Clone, Copy)]
pub(crate) struct DueWords(pub Option<Item>);

impl fmt::Display for DueWords {
    ghost output = { λ d. Some (due_text d.0) };

    fn fmt<W: fmt::Write>(&self, f: &mut fmt::Formatter<W>) -> fmt::Result {
        match self.0 {
            Some(item) => {
                let words = ItemWords(item);
                write!(f, "{words}")
            }
            None => f.write_str("no item"),
        }
    }
}
