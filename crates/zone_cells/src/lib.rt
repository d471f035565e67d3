//! What operations on cells mean for the zone that the cells hold: theory alone.
#![tactic(auto)]
