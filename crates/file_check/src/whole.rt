// The line of a whole file.
ghost use Rattle.file_check.specs.Files.{line_from};
ghost use Rattle.file_check.specs.Walks.{RunsAll};
ghost use Rattle.file_rules.specs.Numbers.{NetNumbered};
ghost use Rattle.file_rules.specs.Reports.{Reports};
ghost use Rattle.file_rules.specs.Truth.{LinePromise, Truth};

use crate::file::DocketFile;
use crate::watcher::Silent;
use bounds::{Bound, MarkedBound, PlainBound};
use docket::{BOOK_CELLS, BOOK_PLACES};
use file_rules::{FileFault, Line, lines_keep_promises};
use net_records::header::NetKind;
use net_records::packed::PackedNet;
use zone_drafts::draft::DRAFT_CELLS;

// The line of the records that are left, with nobody to hear of them.
fn line_of<B: Bound>(file: &mut DocketFile<'_, '_, B>) -> Line
    ensures { RunsAll B.Bound.kind file.old result }
{
    match file.walk(&mut Silent) {
        Ok(line) => line,
        Err(never) => match never {},
    }
}

// A file's docket under its net, over memory of its own.
fn check_file(bytes: &[u8]) -> Result<Line, FileFault>
    ensures line { Reports bytes.now (line_from result) }
    ensures number { NetNumbered bytes.now }
{
    let net = PackedNet::read(bytes)?;
    let mut places = [0; BOOK_PLACES];
    // the cells are made where the kind is known: see `DocketFile`
    match net.header().kind {
        NetKind::Plain => {
            let mut cells = [PlainBound::no_limit(); BOOK_CELLS];
            let mut scratch = [PlainBound::no_limit(); DRAFT_CELLS];
            let mut file = DocketFile::new(net, &mut cells, &mut places, &mut scratch);
            Ok(line_of(&mut file))
        }
        NetKind::Marked => {
            let mut cells = [MarkedBound::no_limit(); BOOK_CELLS];
            let mut scratch = [MarkedBound::no_limit(); DRAFT_CELLS];
            let mut file = DocketFile::new(net, &mut cells, &mut places, &mut scratch);
            Ok(line_of(&mut file))
        }
    }
}

/// The line of a file: sealed, still due, or refused at a record. What it ensures besides is that a
/// sealed line is true: no run of the net that the bytes say, on any grid and of any length, leads
/// from their initial marking to their target.
pub fn report(bytes: &[u8]) -> Line
    ensures line { Reports bytes.now result }
    ensures number { NetNumbered bytes.now }
    ensures truth { Truth bytes.now result }
    ensures promise { LinePromise bytes.now }
{
    lines_keep_promises();
    check_file(bytes).unwrap_or_else(Line::Refused)
}
