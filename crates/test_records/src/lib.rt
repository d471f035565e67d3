//! Records made by hand, for the tests of other crates: nothing here comes from what the crates
//! make of a record.
#![tactic(auto)]

pub mod net_bytes;
pub mod zone_bytes;
