//! Bounds on differences of ages: the interface of a kind with its laws, and two kinds that keep
//! them. The kinds are two types and not one with a parameter, since a plain bound has no room for
//! a mark.
#![tactic(auto)]

pub mod bound;
pub mod made;
pub mod marked;
pub mod plain;
pub mod range;
mod words;

pub use bound::{Bound, NO_LIMIT_TEXT};
pub use made::{LARGEST_NUMBER, MakeError, bound_of, within_limits};
pub use marked::{MarkedBound, MarkedNumber};
pub use plain::PlainBound;
pub use range::Range;
pub use words::LARGEST_SIZE;
