//! Why a docket's call is refused.
#![tactic(auto)]

pub mod refusal;

pub use refusal::CallRefusal;
