//! What a docket takes and answers, call by call, and what its seal promises. Begin with
//! specs/Promise.antt.
//!
//! Theory, on contracts of functions that do nothing, and one enum.
#![tactic(auto)]

pub mod laws;
pub mod stage;

pub use laws::{calls_keep_laws, calls_keep_pages, seals_keep_promises};
pub use stage::Stage;
