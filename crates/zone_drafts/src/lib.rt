//! Zones in lent cells: a draft to work on, and the predecessors made in it.
#![tactic(auto)]

pub mod byte_list;
pub mod bytes;
pub mod delay;
pub mod draft;
pub mod fill;
pub mod firing;
pub mod settle;
pub mod tokens;
