//! A file read record by record, with the docket that its records ask for, and the line that it
//! comes to.
#![tactic(auto)]

pub mod file;
pub mod initial;
mod walk;
pub mod watcher;
pub mod whole;

pub use file::DocketFile;
pub use initial::InitialLists;
pub use watcher::{Silent, Watcher};
pub use whole::report;
