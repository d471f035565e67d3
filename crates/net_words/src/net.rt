//! The whole text: a summary, then each transition with its arcs.
ghost use Rattle.net_words.specs.Explained.{side_lines, transition_lines, net_text, explained_text};
ghost use Rattle.std.specs.Prelude.{◌≡◌, Some, IfOk, string_bytes};

use crate::arc::ArcWords;
use crate::summary::Summary;
use net_records::packed::PackedNet;
use nets::Side;
use std::alloc::{AllocError, Global};
use std::fmt;

/// A line for each arc of a side.
#[derive(Clone, Copy)]
struct SideLines<'a> {
    net: PackedNet<'a>,
    transition: u8,
    side: Side,
}

#[derive(Clone, Copy)]
struct TransitionLines<'a> {
    net: PackedNet<'a>,
    number: u8,
}

#[derive(Clone, Copy)]
pub struct NetLines<'a>(pub PackedNet<'a>);

impl<'a> fmt::Display for SideLines<'a> {
    ghost output = { λ s. Some (side_lines s.net.bytes.now s.transition s.side) };

    fn fmt<W: fmt::Write>(&self, f: &mut fmt::Formatter<W>) -> fmt::Result {
        let side = self.side;
        for arc in 1..=self.net.arc_count(self.transition, side) {
            if let Some(slot) = self.net.slot(self.transition, side, arc) {
                let words = ArcWords { side, slot };
                writeln!(f, "  {words}")?;
            }
        }
        Ok(())
    }
}

impl<'a> fmt::Display for TransitionLines<'a> {
    ghost output = { λ t. Some (transition_lines t.net.bytes.now t.number) };

    fn fmt<W: fmt::Write>(&self, f: &mut fmt::Formatter<W>) -> fmt::Result {
        let number = self.number;
        let inputs = SideLines {
            net: self.net,
            transition: number,
            side: Side::Input,
        };
        let outputs = SideLines {
            side: Side::Output,
            ..inputs
        };
        write!(f, "transition {number}\n{inputs}{outputs}")
    }
}

impl<'a> fmt::Display for NetLines<'a> {
    ghost output = { λ n. Some (net_text n.0.bytes.now) };

    fn fmt<W: fmt::Write>(&self, f: &mut fmt::Formatter<W>) -> fmt::Result {
        let net = self.0;
        let header = net.header();
        let summary = Summary(header);
        writeln!(f, "{summary}")?;
        for number in 1..=header.transitions {
            let lines = TransitionLines { net, number };
            write!(f, "{lines}")?;
        }
        Ok(())
    }
}

/// What the bytes say, line by line: the net, or in one line why they are refused. The only error
/// is memory that is not there.
pub fn explain(heap: Global, bytes: &[u8]) -> Result<String, AllocError>
    ensures { IfOk result (λ s. string_bytes s ≡ explained_text bytes.now) }
{
    match PackedNet::read(bytes) {
        Ok(net) => NetLines(net).to_string(heap),
        Err(fault) => format!(in heap; "refused {fault}\n"),
    }
}
