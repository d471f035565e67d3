//! Closed loops of timing constraints: bounds, one to a line, added up, and whether any timing
//! meets them.
#![tactic(auto)]

pub mod judging;
pub mod line;
mod text;

pub use judging::{BadLine, Verdict, judge};
pub use line::LineFault;
