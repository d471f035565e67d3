//! Timed Petri nets: the model with its runs, and the interface of a net store.
#![tactic(auto)]

pub mod runs;
pub mod side;
pub mod store;

pub use runs::runs_keep_laws;
pub use side::Side;
pub use store::NetStore;
