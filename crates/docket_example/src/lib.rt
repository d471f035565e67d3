//! The check of a safety certificate over a net store of one's own: what a maker of line-design
//! tools writes around a docket.
#![tactic(auto)]

#[cfg(test)]
mod cases;
pub mod certificate;
pub mod checking;

pub use certificate::Certificate;
pub use checking::{Entry, Refused, Verdict, check};
