//! How far a docket has come.
use docket_dues::Item;

/// How far a docket has come: each stage takes calls of its own.
#[derive(Clone, Copy, PartialEq, Eq, Debug)]
pub enum Stage {
    /// As a new docket is.
    Blank,
    /// Opened: zones may be posted.
    Listing,
    /// Closed, with the first item that is due.
    Proving(Item),
    /// Every item is vouched for.
    Sealed,
}
