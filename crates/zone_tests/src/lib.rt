//! Zones of every layer, worked out by hand from the rules: records, normal forms, predecessors,
//! vouching.
#![tactic(auto)]

#[cfg(test)]
mod book_cases;
#[cfg(test)]
mod drafts;
#[cfg(test)]
mod firing_cases;
#[cfg(test)]
mod marking_cases;
#[cfg(test)]
mod zone_cases;
