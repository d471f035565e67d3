//! Zones, their predecessors and vouching: the rules, and why they make a certificate sound.
//! Theory alone, on contracts of functions that do nothing.
#![tactic(auto)]

pub mod laws;

pub use laws::{certificates_are_sound, zones_keep_laws};

/// A listed zone has at most so many tokens; a predecessor has up to 12.
pub const MOST_TOKENS: u8 = 8;
