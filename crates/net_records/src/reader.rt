//! A reader that walks borrowed bytes record by record.
ghost use Rattle.net_records.specs.Parts.{Parted};
ghost use Rattle.std.specs.Prelude.{◌≡◌, ◌==◌, length};

use crate::fault::Missing;
use std::marker::Model;

/// What is left of the bytes, and the number of the record that comes next.
#[derive(Drop)]
pub struct Reader<'a> {
    pub(crate) rest: &'a [u8],
    pub(crate) next: usize,
}

impl<'a> Model for Reader<'a> {
    ghost use Rattle.net_records.specs.Parts.{Unread};
    ghost use Rattle.std.specs.Prelude.{◌+◌, ◌^◌, ◌<◌, length};

    ghost Value = { Unread };

    ghost view = { λ s. record { rest = s.rest.now; next = s.next } };

    // records have a byte at least, so there is a number for each that is left
    ghost invariant = { λ s. s.next + length s.rest.now < 2 ^ 64 };
}

/// The bytes of one record, with its number.
#[derive(Clone, Copy)]
pub struct Part<'a> {
    pub bytes: &'a [u8],
    pub at: usize,
}

impl<'a> Reader<'a> {
    /// A reader of bytes whose first record has number 0.
    pub fn new(bytes: &'a [u8]) -> Reader<'a>
        ensures { result ≡ record { rest = bytes.now; next = 0 } }
    {
        Reader {
            rest: bytes,
            next: 0,
        }
    }

    /// Whether no byte is left.
    pub fn is_empty(&self) -> bool
        ensures { result ≡ (length self.now.rest == 0) }
    {
        self.rest.is_empty()
    }

    /// The number of the record that comes next.
    pub fn number(&self) -> usize
        ensures { result ≡ self.now.next }
    {
        self.next
    }

    /// The next record, of this many bytes and at least one. Where they are not there, nothing
    /// moves.
    pub fn part(&mut self, size: usize) -> Result<Part<'a>, Missing>
        ensures { Parted size self.old result self.new }
    {
        let at = self.next;
        if size == 0 || self.rest.len() < size {
            return Err(Missing { at });
        }
        let (bytes, rest) = self.rest.split_at(size);
        self.rest = rest;
        self.next = at + 1;
        Ok(Part { bytes, at })
    }
}
