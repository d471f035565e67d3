//! The calls of a docket, worked out by hand from the rules: what each answers, and what it leaves.
#![tactic(auto)]

#[cfg(test)]
mod covered_cases;
#[cfg(test)]
mod discharge_cases;
#[cfg(test)]
mod due_cases;
#[cfg(test)]
mod faults;
#[cfg(test)]
mod fixture;
#[cfg(test)]
mod open_cases;
#[cfg(test)]
mod page_cases;
#[cfg(test)]
mod post_cases;
#[cfg(test)]
mod seal_cases;
#[cfg(test)]
mod stages;
#[cfg(test)]
mod voucher_cases;
