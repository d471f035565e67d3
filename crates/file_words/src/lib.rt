//! The docket part of a file in words for a person: its header, the initial tokens, the target and
//! the listed zones, the vouchers, and the line that the file comes to.
#![tactic(auto)]

mod asked;
pub mod bound;
pub mod head;
pub mod item;
pub mod line;
pub mod numbered;
pub mod table;
pub mod teller;
pub mod voucher;
pub mod whole;
pub mod zone;

pub use teller::Teller;
pub use whole::explain_file;
