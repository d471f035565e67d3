//! Walks over bounds and their normal forms: theory alone, on the contract of a function that does
//! nothing.
#![tactic(auto)]

pub mod laws;

pub use laws::normal_forms_keep_laws;
