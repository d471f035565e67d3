// A certificate that no run of a line covers a target, as a solver gives it.

/// The opening, the listed zones and the vouchers, each as a docket is given them.
#[derive(Clone, Copy)]
pub struct Certificate<'a> {
    /// A place for each initial token.
    pub places: &'a [u8],
    /// An age for each initial token.
    pub ages: &'a [u16],
    /// The record of the target's zone.
    pub target: &'a [u8],
    /// The records of the listed zones.
    pub zones: &'a [[u8; 192]],
    /// A voucher for each item that is due, in due order.
    pub vouchers: &'a [[u8; 6]],
}
