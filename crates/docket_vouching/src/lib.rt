//! The zone that an item asks to vouch for, as a value over its page, and a page's zone compared
//! with it row by row.
#![tactic(auto)]

pub mod asked;
mod fits;
mod own;
mod points;
mod rows;
pub mod vouching;
pub mod work;
