//! Narrowing, delay and firing of a zone in closed form.
//! Two rows are kept; each bound of the zone before is one comparison and one sum over them and the
//! zone's own bounds. Theory alone, on contracts of functions that do nothing.
#![tactic(auto)]

pub mod laws;

pub use laws::{closed_forms_are_predecessors, closed_forms_go_by_clock_rows};
