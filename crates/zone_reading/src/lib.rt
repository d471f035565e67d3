//! Zone records read into a draft, in normal form.
#![tactic(auto)]

mod form;
mod read;

pub use read::read_zone;
