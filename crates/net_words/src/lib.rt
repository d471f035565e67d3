//! A net in words for a person: what each transition takes and puts, or why the bytes are refused.
#![tactic(auto)]

pub mod ages;
pub mod arc;
pub mod net;
pub mod summary;

pub use ages::Ages;
pub use arc::ArcWords;
pub use net::{NetLines, explain};
pub use summary::{Counted, Summary};
