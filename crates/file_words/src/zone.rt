// A zone in words: its tokens with their places, and the table of its bounds.
ghost use Rattle.std.specs.Prelude.{◌≡◌, ◌<◌, ◌++◌, Some, string_bytes, length, OnOk};
ghost use Rattle.zone_cells.specs.Cells.{in_draft};
ghost use Rattle.file_words.specs.Told.{last_page_text};
ghost use Rattle.file_words.specs.Zones.{places_text, zone_text};

use crate::bound::BoundWords;
use crate::numbered::Numbered;
use crate::table::{Bounds, Draft, write_table};
use file_check::DocketFile;
use net_words::Counted;
use std::alloc::AllocError;
use std::fmt;
use zone_drafts::tokens::Tokens;

// A line for each token.
#[derive(Clone, Copy)]
pub(crate) struct Places<'a>(pub &'a [u8]);

impl<'a> fmt::Display for Places<'a> {
    ghost output = { λ p. Some (places_text p.0.now) };

    fn fmt<W: fmt::Write>(&self, f: &mut fmt::Formatter<W>) -> fmt::Result {
        for (t, place) in self.0.iter().enumerate() {
            let number = t + 1;
            writeln!(f, "  token {number} in place {place}")?;
        }
        Ok(())
    }
}

// The zone in these places with the bounds of a table. No `Display`, as its table is none.
fn write_tabled<B: BoundWords, T: Bounds<B>>(
    text: &mut String,
    number: u8,
    places: &[u8],
    table: &T,
) -> Result<(), AllocError>
    requires { length places.now < 256 }
    ensures { OnOk result
        (string_bytes text.new
        ≡ string_bytes text.old
        ++ zone_text B.BoundWords.words number places.now (T.Bounds.bounds table.now)) }
{
    let name = Numbered::zone(number);
    let count = places.len() as u8;
    let counted = Counted {
        count: u64::from(count),
        name: "token",
    };
    let places = Places(places);
    write!(text, "{name}: {counted}\n{places}")?;
    write_table(text, table, count)
}

/// Writes the zone of these tokens whose bounds stand in the cells of a draft. The target has
/// number 0, and the listed zones follow it.
pub fn write_zone<B: BoundWords>(
    text: &mut String,
    number: u8,
    tokens: Tokens,
    cells: &[B],
) -> Result<(), AllocError>
    ensures { OnOk result
        (string_bytes text.new
        ≡ string_bytes text.old
        ++ zone_text B.BoundWords.words number tokens.items
        (in_draft B.Bound.kind cells.now)) }
{
    write_tabled(text, number, &tokens, &Draft(cells))
}

// The zone that the docket of the file took last.
pub(crate) fn write_last<B: BoundWords>(
    text: &mut String,
    file: &DocketFile<'_, '_, B>,
) -> Result<(), AllocError>
    ensures { OnOk result
        (string_bytes text.new
        ≡ string_bytes text.old ++ last_page_text B.Bound.kind B.BoundWords.words file.now.world) }
{
    let number = file.listed();
    let page = file.page(number);
    write_tabled(text, number, page.places, &page)
}
