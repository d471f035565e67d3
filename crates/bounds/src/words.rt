//! Words that bounds are kept in: numbers near zero, and one word far from them.

/// A sum that lies further from zero is no limit.
pub const LARGEST_SIZE: i64 = 1 << 40;

/// The word that says that there is no limit: its sum with any other word is no number's. All its
/// bytes are alike, so memory is filled with it as with bytes.
pub(crate) const NO_LIMIT_WORD: i64 = 0x2020_2020_2020_2020;
