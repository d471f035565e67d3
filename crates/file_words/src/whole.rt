// A whole file in words: its net, and then the docket part with the line that it comes to.
ghost use Rattle.docket_rules.specs.Calls.{Sound};
ghost use Rattle.docket_rules.specs.Logs.{Log};
ghost use Rattle.docket_rules.specs.Reached.{CallLaws, ReachedByCalls};
ghost use Rattle.docket_rules.specs.Worlds.{World};
ghost use Rattle.file_words.specs.Told.{EndsInLine, FileTold, PartTold, UnderTold};
ghost use Rattle.std.specs.Prelude.{◌≡◌, IfOk, string_bytes};

use crate::asked::write_due;
use crate::bound::BoundWords;
use crate::line::LineWords;
use crate::teller::Teller;
use bounds::{Bound, MarkedBound, PlainBound};
use docket::{BOOK_CELLS, BOOK_PLACES};
use docket_rules::{calls_keep_laws, calls_keep_pages};
use file_check::DocketFile;
use net_records::header::{NetHeader, NetKind};
use net_records::packed::PackedNet;
use net_records::transition::TransitionRecord;
use net_words::{NetLines, explain};
use nets::NetStore;
use std::alloc::{AllocError, Global};
use zone_drafts::draft::DRAFT_CELLS;

// Does nothing: its contract is what the calls of a docket over this store come to.
fn calls_lead<B: Bound, N: NetStore<B>>(store: &N)
    ensures laws { CallLaws B.Bound.kind (N.NetStore.net store.now) }
    ensures pages { (log : Log B) (w : World B) →
        ReachedByCalls B.Bound.kind (N.NetStore.net store.now) log w →
        Sound B.Bound.kind (N.NetStore.net store.now) w }
{
    store.keeps_limits();
    calls_keep_laws::<B>();
    calls_keep_pages::<B>();
}

// The text with the docket part under a net.
fn with_records<B: BoundWords>(
    text: String,
    net: PackedNet<'_>,
    cells: &mut [B; BOOK_CELLS],
    scratch: &mut [B; DRAFT_CELLS],
    draft: &mut [B; DRAFT_CELLS],
) -> Result<String, AllocError>
    ensures { IfOk result (λ s.
        UnderTold B.Bound.kind B.BoundWords.words net.entry.bytes.now (string_bytes text)
        (string_bytes s)) }
{
    let mut places = [0; BOOK_PLACES];
    let mut file = DocketFile::new(net, cells, &mut places, scratch);
    let mut teller = Teller { text };
    let line = file.walk(&mut teller)?;
    let Teller { mut text } = teller;
    calls_lead::<B, PackedNet<'_>>(&net);
    write_due(&mut text, &net, &file, draft)?;
    let words = LineWords(line);
    writeln!(text, "{words}")?;
    Ok(text)
}

// The text with the docket part under this net, if any bytes follow the net records.
fn with_docket(text: String, bytes: &[u8], net: PackedNet<'_>) -> Result<String, AllocError>
    requires { net.bytes.now ≡ bytes.now }
    ensures { IfOk result (λ s. PartTold bytes.now (string_bytes text) (string_bytes s)) }
{
    let header = net.header();
    let size = NetHeader::SIZE + TransitionRecord::SIZE * usize::from(header.transitions);
    if bytes.len() <= size {
        return Ok(text);
    }
    // the cells are made where the kind is known: see `DocketFile`
    match header.kind {
        NetKind::Plain => with_records(
            text,
            net,
            &mut [PlainBound::no_limit(); BOOK_CELLS],
            &mut [PlainBound::no_limit(); DRAFT_CELLS],
            &mut [PlainBound::no_limit(); DRAFT_CELLS],
        ),
        NetKind::Marked => with_records(
            text,
            net,
            &mut [MarkedBound::no_limit(); BOOK_CELLS],
            &mut [MarkedBound::no_limit(); DRAFT_CELLS],
            &mut [MarkedBound::no_limit(); DRAFT_CELLS],
        ),
    }
}

/// What a file says, line by line: the net, and then the docket part with its vouchers; where an
/// item is due then, the zone that it asks for; at the end the line that the file comes to. The
/// only error is memory that is not there.
pub fn explain_file(heap: Global, bytes: &[u8]) -> Result<String, AllocError>
    ensures told { IfOk result (λ s. FileTold bytes.now (string_bytes s)) }
    ensures line { IfOk result (λ s. EndsInLine bytes.now (string_bytes s)) }
{
    match PackedNet::read(bytes) {
        Ok(net) => {
            let text = NetLines(net).to_string(heap)?;
            with_docket(text, bytes, net)
        }
        Err(_) => explain(heap, bytes),
    }
}
