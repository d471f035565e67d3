//! Initial markings: whether one satisfies a zone.
#![tactic(auto)]

mod pairing;
mod search;

pub use pairing::InitialTokens;
pub use search::satisfies;
