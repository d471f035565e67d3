// Reading a zone record.
ghost use Rattle.zone_reading.specs.Readings.{Read};
ghost use Rattle.std.specs.Prelude.{◌≡◌, length};

use crate::form::TestedRecord;
use bounds::Bound;
use docket_records::fault::EntryRefusal;
use docket_records::zone::ZoneRecord;
use zone_drafts::tokens::Tokens;

/// Reads a record under a net of so many places into 169 cells, in normal form. A record that is
/// refused by its bytes alone leaves the cells as they were.
pub fn read_zone<B: Bound>(
    bytes: &[u8],
    places: u8,
    cells: &mut [B],
) -> Result<Tokens, EntryRefusal>
    ensures kept { length cells.new ≡ length cells.old }
    ensures answer { Read B.Bound.kind places bytes.now cells.old cells.new result }
{
    let record = ZoneRecord::new(bytes);
    record.check::<B>(places)?;
    let zone = TestedRecord { record };
    // no `From`: `zone_drafts`, which has this error, knows nothing of refusals
    zone.form(cells).map_err(|_| EntryRefusal::Inconsistent)?;
    Ok(zone.places())
}
