// The output arcs that a matching gives tokens to.
use arrayvec::ArrayVec;

// The place of each output arc of a transition, and of each token of a zone.
#[derive(Drop)]
pub(crate) struct Outputs<'a> {
    pub(crate) arcs: ArrayVec<u8, 4>,
    pub(crate) tokens: &'a [u8],
}
