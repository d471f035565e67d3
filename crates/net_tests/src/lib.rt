//! Examples and edges of every layer, worked out by hand from the rules.
#![tactic(auto)]

mod bound_edges;
mod loop_cases;
mod net_cases;
mod word_cases;
