//! What a child wrote is written again.
ghost use Rattle.std.specs.Prelude.{◌++◌, codes};
ghost use Rattle.rtmfp_host.specs.Faults.{CountsWrote};
ghost use Rattle.rtmfp_host.specs.Writing.{Writes};
ghost use Rattle.rtmfp_lines.specs.Lines.{lines_of};
ghost use Rattle.rtmfp_meet.specs.Nodes.{behind, marked};
ghost use Rattle.rtmfp_meet.specs.Steps.{HandsOver};

use crate::node::Node;
use rtmfp_host::{Sink, Wrote};
use rtmfp_lines::first_line;

/// Writes a line behind its prefix, and LF behind it.
fn write_line<K: Sink>(prefix: &str, line: &[u8], sink: &mut K) -> Wrote
    ensures bytes { Writes (K.seen sink.old).written (K.seen sink.new).written result
        (prefix.now ++ (line.now ++ codes "\n")) }
    ensures faults { CountsWrote result (K.seen sink.old).faults (K.seen sink.new).faults }
{
    match sink.write(prefix.as_bytes()) {
        Wrote::Done => {}
        Wrote::Failed => return Wrote::Failed,
    }
    match sink.write(line) {
        Wrote::Done => {}
        Wrote::Failed => return Wrote::Failed,
    }
    sink.write(b"\n")
}

/// Writes each line of a text so.
fn write_lines<K: Sink>(prefix: &str, text: &[u8], sink: &mut K) -> Wrote
    ensures bytes { Writes (K.seen sink.old).written (K.seen sink.new).written result
        (behind prefix.now (lines_of text.now)) }
    ensures faults { CountsWrote result (K.seen sink.old).faults (K.seen sink.new).faults }
{
    let mut rest = text;
    while let Some((line, after)) = first_line(rest) {
        match write_line(prefix, line, sink) {
            Wrote::Done => {}
            Wrote::Failed => return Wrote::Failed,
        }
        rest = after;
    }
    Wrote::Done
}

/// Writes the lines of a node's text with the letter of the node, and passes them on.
pub(crate) fn hand_over<K: Sink>(node: Node, text: &[u8], sink: &mut K) -> Wrote
    ensures { HandsOver result (marked node text.now) (K.seen sink.old) (K.seen sink.new) }
{
    match write_lines(node.prefix(), text, sink) {
        Wrote::Done => sink.flush(),
        Wrote::Failed => Wrote::Failed,
    }
}
