//! Items that are due, worked out over a net store: which comes next, and the zone that one asks to
//! vouch for.
#![tactic(auto)]

pub mod next;
pub mod zone;

pub use next::next_due;
pub use zone::item_zone;
