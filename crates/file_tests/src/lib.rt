//! Whole files, each with its line worked out by hand from the rules.
#![tactic(auto)]

#[cfg(test)]
mod docket_cases;
#[cfg(test)]
mod due_cases;
#[cfg(test)]
mod file;
#[cfg(test)]
mod net_cases;
#[cfg(test)]
mod voucher_cases;
#[cfg(test)]
mod word_cases;
