//! Matchings as numbers of 16 bits: which are matchings, and the next one in ascending order.
#![tactic(auto)]

mod counted;
mod fitting;
mod matching;
mod next;
mod numerals;
mod outputs;

pub use counted::numbered;
pub use fitting::is_among;
pub use matching::{arc_count, is_matching, next_matching};
pub use numerals::digits;
