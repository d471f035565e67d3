//! Net records made by hand: one transition of one input and one output arc.
use std::alloc::{AllocError, Global};

/// A slot that is not used.
pub const UNUSED: [u8; 5] = [0; 5];

/// By the header's four bytes, and the slots of the two arcs.
pub fn one_transition(
    heap: Global,
    header: &[u8; 4],
    taken: [u8; 5],
    given: [u8; 5],
) -> Result<Vec<u8>, AllocError> {
    let mut bytes = Vec::from_slice(heap, header)?;
    // one input, one output
    bytes.push(0x24)?;
    for slot in [taken, UNUSED, UNUSED, UNUSED, given, UNUSED, UNUSED, UNUSED] {
        bytes.extend_from_slice(&slot)?;
    }
    Ok(bytes)
}
