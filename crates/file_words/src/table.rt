// The bounds of a zone as a table: a row limits the age of its point less the age of each point.
ghost use Rattle.zone_cells.specs.Cells.{in_draft, in_page};
ghost use Rattle.file_words.specs.Tables.{column_text, cell_text, row_text, table_text};
ghost use Rattle.std.specs.Prelude.{ℕ, ◌≡◌, ◌+◌, ◌++◌, Some, string_bytes, OnOk};

use crate::bound::BoundWords;
use crate::numbered::Numbered;
use bounds::Bound;
use std::alloc::AllocError;
use std::fmt;
use zone_drafts::draft::bound_at;
use zone_pages::Page;

/// What has a bound for the numbers of two points.
pub trait Bounds<B: Bound> {
    ghost bounds: { Self → ℕ → ℕ → B };

    /// The bound on the age of the row's point less the age of the column's.
    fn less(&self, row: u8, column: u8) -> B
        ensures { result ≡ bounds self.now row column };
}

impl<B: Bound> Bounds<B> for Page<'_, B> {
    ghost bounds = { λ p. in_page B.Bound.kind p.cells.now };

    fn less(&self, row: u8, column: u8) -> B {
        self.bound(row, column)
    }
}

/// The cells of a draft.
#[derive(Clone, Copy)]
pub struct Draft<'a, B>(pub &'a [B]);

impl<B: Bound> Bounds<B> for Draft<'_, B> {
    ghost bounds = { λ d. in_draft B.Bound.kind d.0.now };

    fn less(&self, row: u8, column: u8) -> B {
        bound_at(self.0, row, column)
    }
}

// The point of a column, parted from the one before it.
#[derive(Clone, Copy)]
struct Column(u8);

impl fmt::Display for Column {
    ghost output = { λ c. Some (column_text c.0) };

    fn fmt<W: fmt::Write>(&self, f: &mut fmt::Formatter<W>) -> fmt::Result {
        let point = Numbered::point(self.0);
        if self.0 == 0 {
            write!(f, " {point} ")
        } else {
            write!(f, " | {point} ")
        }
    }
}

// Cells, rows and the table are no `Display`: a kind writes its bounds to a `String` alone.
fn write_cell<B: BoundWords, T: Bounds<B>>(
    text: &mut String,
    table: &T,
    row: u8,
    column: u8,
) -> Result<(), AllocError>
    ensures { OnOk result
        (string_bytes text.new
        ≡ string_bytes text.old
        ++ cell_text B.BoundWords.words (T.Bounds.bounds table.now) row column) }
{
    let point = Column(column);
    write!(text, "{point}")?;
    table.less(row, column).write_words(text)
}

fn write_row<B: BoundWords, T: Bounds<B>>(
    text: &mut String,
    table: &T,
    tokens: u8,
    row: u8,
) -> Result<(), AllocError>
    ensures { OnOk result
        (string_bytes text.new
        ≡ string_bytes text.old
        ++ row_text B.BoundWords.words (T.Bounds.bounds table.now) (tokens + 1) row) }
{
    let point = Numbered::point(row);
    write!(text, "  {point} less:")?;
    for column in 0..tokens {
        write_cell(text, table, row, column)?;
    }
    // the last one by itself, as so many tokens have one point more
    write_cell(text, table, row, tokens)?;
    writeln!(text)
}

/// Writes the table of a zone with so many tokens.
pub fn write_table<B: BoundWords, T: Bounds<B>>(
    text: &mut String,
    table: &T,
    tokens: u8,
) -> Result<(), AllocError>
    ensures { OnOk result
        (string_bytes text.new
        ≡ string_bytes text.old
        ++ table_text B.BoundWords.words (T.Bounds.bounds table.now) (tokens + 1)) }
{
    for row in 0..tokens {
        write_row(text, table, tokens, row)?;
    }
    write_row(text, table, tokens, tokens)
}
