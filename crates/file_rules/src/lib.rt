//! The one line that a file comes to, and what is promised of it.
#![tactic(auto)]

pub mod fault;
pub mod laws;
pub mod line;

pub use fault::{FileFault, FileRefusal};
pub use laws::lines_keep_promises;
pub use line::Line;
