//! The records after the net, in borrowed bytes: what they say, and what is wrong with them.
#![tactic(auto)]

mod bits;
pub mod docket_header;
pub mod fault;
pub mod record;
pub mod record_bound;
pub mod token;
pub mod voucher;
pub mod zone;
