//! An item that is due.

/// A zone, a transition and a matching, by their numbers. Numbers and not an enum, since callers
/// name items so, and print them.
#[derive(Clone, Copy, PartialEq, Eq, Debug)]
pub struct Item {
    /// A listed zone; 0 is the target.
    pub zone: u8,
    /// A transition of the net; 0 is a delay.
    pub transition: u8,
    /// The matching's number, its digits in 16 bits; 0 for a delay and for the target.
    pub matching: u16,
}
