// The delay predecessor.
ghost use Rattle.zone_drafts.specs.Backwards.{DelayedBack};

use crate::draft::delay_back;
use bounds::Bound;
use zones::MOST_TOKENS;

/// Turns a zone of a page into its delay predecessor.
pub fn delay_predecessor<B: Bound>(cells: &mut [B], places: &[u8])
    ensures { DelayedBack B.Bound.kind places.now cells.old cells.new }
{
    if places.len() <= usize::from(MOST_TOKENS) {
        delay_back(cells, places.len() as u8 + 1);
    }
}
