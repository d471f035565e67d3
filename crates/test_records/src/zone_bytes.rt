//! Zone records made by hand: twelve bytes of header, then 72 bounds of 20 bits.
use std::alloc::{AllocError, Global};

/// Codes of bounds; negative numbers in two's complement of 19 bits, a mark before them.
pub const NO_LIMIT: u32 = 0x40000;

/// No limit with a mark, which no record may have.
pub const MARKED_NO_LIMIT: u32 = 0xc0000;

/// At most −1.
pub const MINUS_1: u32 = 0x7ffff;

/// At most −2.
pub const MINUS_2: u32 = 0x7fffe;

/// At most −3.
pub const MINUS_3: u32 = 0x7fffd;

/// At most −5.
pub const MINUS_5: u32 = 0x7fffb;

/// Less than 0.
pub const STRICT_0: u32 = 0x80000;

/// Marked −1 in the clock's row: ages above 1.
pub const ABOVE_1: u32 = 0xfffff;

/// Marked −2: ages above 2.
pub const ABOVE_2: u32 = 0xffffe;

/// Less than 2.
pub const BELOW_2: u32 = 0x80002;

/// Less than 3.
pub const BELOW_3: u32 = 0x80003;

/// The code of the bound of two points; those that are not listed have no limit.
pub type Listed = (u8, u8, u32);

/// Two tokens, of ages 1 to 6 and 0 to 8; the first is at most 8 older, the second at most 4.
pub const TWO: [Listed; 6] = [
    (0, 1, MINUS_1),
    (0, 2, 0),
    (1, 0, 6),
    (1, 2, 8),
    (2, 0, 8),
    (2, 1, 4),
];

/// The format's own count, apart from what the crate `docket_records` makes of it: a test by that would
/// find its faults right.
fn entry_number(j: u8, i: u8) -> usize {
    let column = if j < i { i - 1 } else { i };
    8 * usize::from(j) + usize::from(column)
}

fn code(listed: &[Listed], number: usize) -> u32 {
    listed
        .iter()
        .find(|(j, i, _)| entry_number(*j, *i) == number)
        .map_or(NO_LIMIT, |(_, _, code)| *code)
}

/// Two bounds of 20 bits in five bytes.
fn add_pair(bytes: &mut Vec<u8>, a: u32, b: u32) -> Result<(), AllocError> {
    let both = (u64::from(a) << 20) | u64::from(b);
    bytes.extend_from_slice(&both.to_be_bytes()[3..])
}

/// A record by the first bytes of its header, tokens and places; the rest of the header is zero.
pub fn record(heap: Global, header: &[u8], listed: &[Listed]) -> Result<Vec<u8>, AllocError> {
    let mut bytes = Vec::from_slice(heap, header)?;
    bytes.resize(12, 0)?;
    for pair in 0..36 {
        let first = code(listed, 2 * pair);
        add_pair(&mut bytes, first, code(listed, 2 * pair + 1))?;
    }
    Ok(bytes)
}
