//! The running code of a docket, over one net store and one lent book.
#![tactic(auto)]

pub mod docket;
mod memory;

pub use docket::Docket;
pub use memory::{BOOK_CELLS, BOOK_PLACES};
