//! What is due for a list of zones, in its order, and why answers to all of it make a certificate.
//!
//! Theory, on contracts of functions that do nothing, and one struct.
#![tactic(auto)]

pub mod item;
pub mod laws;

pub use item::Item;
pub use laws::{answers_make_a_certificate, dues_keep_laws};
