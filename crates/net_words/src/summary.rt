//! The first line of a net in words: its kind, and how many places and transitions it has.
ghost use Rattle.net_words.specs.Summaries.{counted_text, summary_text};
ghost use Rattle.std.specs.Prelude.{Some};

use net_records::header::{NetHeader, NetKind};
use std::fmt;

/// So many things of a name that takes an `s` unless there is one.
#[derive(Clone, Copy)]
pub struct Counted {
    pub count: u64,
    pub name: &'static str,
}

impl fmt::Display for Counted {
    ghost output = { λ c. Some (counted_text c.count c.name.now) };

    fn fmt<W: fmt::Write>(&self, f: &mut fmt::Formatter<W>) -> fmt::Result {
        let count = self.count;
        let name = self.name;
        if count == 1 {
            write!(f, "{count} {name}")
        } else {
            write!(f, "{count} {name}s")
        }
    }
}

#[derive(Clone, Copy)]
pub struct Summary(pub NetHeader);

impl fmt::Display for Summary {
    ghost output = { λ s. Some (summary_text s.0) };

    fn fmt<W: fmt::Write>(&self, f: &mut fmt::Formatter<W>) -> fmt::Result {
        let header = self.0;
        let places = Counted {
            count: u64::from(header.places),
            name: "place",
        };
        let transitions = Counted {
            count: u64::from(header.transitions),
            name: "transition",
        };
        let kind = match header.kind {
            NetKind::Plain => "plain",
            NetKind::Marked => "marked",
        };
        write!(f, "{kind} net: {places}, {transitions}")
    }
}
