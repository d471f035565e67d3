//! Pages of the zone book, and whether a page's zone vouches for a zone in a draft.
#![tactic(auto)]

pub mod book;
pub mod grids;
pub mod objections;
pub mod vouching;

pub use book::{Book, Page};
pub use grids::wipe;
pub use objections::Objection;
pub use vouching::{Asked, Claim};
