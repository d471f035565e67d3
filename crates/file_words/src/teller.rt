// The watcher who tells what a file says: each record in words, as a line or more of a text.
ghost use Rattle.file_words.specs.Told.{teller_words};
ghost use Rattle.std.specs.Prelude.{◌≡◌, ◌++◌, string_bytes};

use crate::bound::BoundWords;
use crate::head::{HeaderWords, TokenWords};
use crate::voucher::write_voucher;
use crate::zone::write_last;
use docket_records::docket_header::DocketHeader;
use docket_records::token::InitialToken;
use file_check::{DocketFile, Watcher};
use std::alloc::AllocError;
use std::marker::Model;

/// A text that grows as a file is walked.
#[derive(Drop)]
pub struct Teller {
    pub(crate) text: String,
}

impl Model for Teller {
    ghost use Rattle.std.specs.Prelude.{ℕ, List, string_bytes};

    ghost Value = { List ℕ };

    ghost view = { λ t. string_bytes t.text };
}

impl<B: BoundWords> Watcher<B> for Teller {
    ghost words = { teller_words B.Bound.kind B.BoundWords.words };

    ghost said = { λ t. t };

    type Stop = AllocError;

    fn header(&mut self, header: DocketHeader) -> Result<(), AllocError> {
        let words = HeaderWords(header);
        writeln!(self.text, "{words}")
    }

    fn token(&mut self, number: u8, token: InitialToken) -> Result<(), AllocError> {
        let words = TokenWords { number, token };
        writeln!(self.text, "{words}")
    }

    fn zone(&mut self, file: &DocketFile<'_, '_, B>) -> Result<(), AllocError> {
        write_last(&mut self.text, file)
    }

    fn voucher(&mut self, file: &DocketFile<'_, '_, B>, voucher: &[u8]) -> Result<(), AllocError> {
        write_voucher(&mut self.text, file, voucher)
    }
}
