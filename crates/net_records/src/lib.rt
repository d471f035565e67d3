//! Records in borrowed bytes: a reader, headers, transitions and their slots, faults, and the
//! packed net store.
#![tactic(auto)]

pub mod fault;
pub mod header;
pub mod net;
pub mod packed;
pub mod reader;
pub mod slot;
pub mod transition;
