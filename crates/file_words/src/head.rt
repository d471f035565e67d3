// The docket header and an initial token in words.
ghost use Rattle.file_words.specs.Heads.{head_text, initial_text};
ghost use Rattle.std.specs.Prelude.{Some};

use docket_records::docket_header::DocketHeader;
use docket_records::token::InitialToken;
use net_words::Counted;
use std::fmt;

/// A docket header.
#[derive(Clone, Copy)]
pub struct HeaderWords(pub DocketHeader);

impl fmt::Display for HeaderWords {
    ghost output = { λ h. Some (head_text h.0) };

    fn fmt<W: fmt::Write>(&self, f: &mut fmt::Formatter<W>) -> fmt::Result {
        let tokens = Counted {
            count: u64::from(self.0.initial),
            name: "initial token",
        };
        let zones = Counted {
            count: u64::from(self.0.zones),
            name: "listed zone",
        };
        write!(f, "docket: {tokens}, {zones}")
    }
}

/// An initial token; tokens are numbered from 1.
#[derive(Clone, Copy)]
pub struct TokenWords {
    /// its number
    pub number: u8,
    /// its place and age
    pub token: InitialToken,
}

impl fmt::Display for TokenWords {
    ghost output = { λ t. Some (initial_text t.number t.token) };

    fn fmt<W: fmt::Write>(&self, f: &mut fmt::Formatter<W>) -> fmt::Result {
        let number = self.number;
        let place = self.token.place;
        let age = self.token.age;
        write!(f, "initial token {number} in place {place}, age {age}")
    }
}
