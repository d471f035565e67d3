//! Worked examples of the rules: theory alone, on the contract of a function that does nothing.
#![tactic(auto)]

pub mod worked;

pub use worked::worked_examples_hold;
