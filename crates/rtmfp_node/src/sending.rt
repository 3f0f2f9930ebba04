//! What a turn writes and sends.
ghost use Rattle.std.specs.Prelude.{◌≡◌, ◌∷◌, ◌++◌, ◌+◌, [], OnOk};
ghost use Rattle.crypto_profile.specs.declared.keys.Context.{Context};
ghost use Rattle.rtmfp_host.specs.Writing.{Appends};
ghost use Rattle.rtmfp_node.specs.Acting.{CountedAt, EmitEnds, LostEnds, PassOn, PassedAt, SendEnds};
ghost use Rattle.rtmfp_node.specs.Outside.{Stays};
ghost use Rattle.rtmfp_node.specs.Report.{front_of, unsent_line};
ghost use Rattle.rtmfp_report.specs.EntryText.{sent_after};

use crate::served::Served;
use endpoint::Entry;
use rtmfp_forms::Address;
use rtmfp_host::{Link, Sent, Sink, Wrote};
use rtmfp_text::{Name, Text};
use std::alloc::AllocError;

/// How the line of a datagram that was lost begins.
#[derive(Clone, Copy)]
pub(crate) enum Front {
    /// In a report: with this turn, and `self`.
    InReport(u64),
    /// In a journal: so that its readers skip it.
    InJournal,
}

/// How that line begins in this turn, where a journal has a label, and in a report.
pub(crate) fn front_of(label: &Option<Name>, turn: u64) -> Front
    ensures { result ≡ front_of label.now turn }
{
    match label {
        None => Front::InReport(turn),
        Some(_) => Front::InJournal,
    }
}

/// Writes the report of a turn, sends the datagrams among its entries, in order, with a line for
/// each that is lost, and passes on what was written. Before the turn `count` datagrams went out.
pub(crate) fn emit<L: Link, K: Sink>(
    report: &[u8],
    heard: &[Entry],
    out: &[Entry],
    front: Front,
    count: u64,
    link: &mut L,
    sink: &mut K,
    lost: &mut Text,
) -> Served
    ensures ends { EmitEnds result front count report.now (heard.now ++ out.now)
        (L.seen link.old).line (L.seen link.new).line
        (K.seen sink.old).written (K.seen sink.new).written }
    ensures link { Stays (L.seen link.old).faults (L.seen link.new).faults }
    ensures sink { CountedAt result (K.seen sink.old).faults (K.seen sink.new).faults }
    ensures passed { PassedAt result (K.seen sink.new) }
{
    match sink.write(report) {
        Wrote::Failed => Served::SinkFault,
        Wrote::Done => {
            let served = send_both(heard, out, front, count, link, sink, lost);
            pass_on(served, sink)
        }
    }
}

/// Passes on what was written, unless the sink has failed.
fn pass_on<K: Sink>(served: Served, sink: &mut K) -> Served
    ensures ends { PassOn served result (K.seen sink.old) (K.seen sink.new) }
    ensures text { Appends (K.seen sink.old).written (K.seen sink.new).written [] }
{
    if served.is_sink_fault() {
        return served;
    }
    match sink.flush() {
        Wrote::Done => served,
        Wrote::Failed => Served::SinkFault,
    }
}

/// Sends the datagrams among these entries and then among those.
fn send_both<L: Link, K: Sink>(
    heard: &[Entry],
    out: &[Entry],
    front: Front,
    count: u64,
    link: &mut L,
    sink: &mut K,
    lost: &mut Text,
) -> Served
    ensures ends { SendEnds result front count (heard.now ++ out.now)
        (L.seen link.old).line (L.seen link.new).line
        (K.seen sink.old).written (K.seen sink.new).written }
    ensures link { Stays (L.seen link.old).faults (L.seen link.new).faults }
    ensures sink { CountedAt result (K.seen sink.old).faults (K.seen sink.new).faults }
{
    let mut number = count;
    let served = send_all(heard, front, &mut number, link, sink, lost);
    if !served.is_done() {
        return served;
    }
    send_all(out, front, &mut number, link, sink, lost)
}

/// Sends each datagram among the entries, in order, and writes a line for each that is lost.
/// `number` counts the datagrams that went out.
fn send_all<L: Link, K: Sink>(
    entries: &[Entry],
    front: Front,
    number: &mut u64,
    link: &mut L,
    sink: &mut K,
    lost: &mut Text,
) -> Served
    ensures ends { SendEnds result front number.old entries.now
        (L.seen link.old).line (L.seen link.new).line
        (K.seen sink.old).written (K.seen sink.new).written }
    ensures number { result ≡ Served.Done → number.new ≡ sent_after number.old entries.now }
    ensures link { Stays (L.seen link.old).faults (L.seen link.new).faults }
    ensures sink { CountedAt result (K.seen sink.old).faults (K.seen sink.new).faults }
{
    for entry in entries {
        let served = send_one(entry, front, number, link, sink, lost);
        if !served.is_done() {
            return served;
        }
    }
    Served::Done
}

/// Sends the datagram of an entry, if it has one.
fn send_one<L: Link, K: Sink>(
    entry: &Entry,
    front: Front,
    number: &mut u64,
    link: &mut L,
    sink: &mut K,
    lost: &mut Text,
) -> Served
    ensures ends { SendEnds result front number.old (entry.now ∷ [])
        (L.seen link.old).line (L.seen link.new).line
        (K.seen sink.old).written (K.seen sink.new).written }
    ensures number { result ≡ Served.Done → number.new ≡ sent_after number.old (entry.now ∷ []) }
    ensures link { Stays (L.seen link.old).faults (L.seen link.new).faults }
    ensures sink { CountedAt result (K.seen sink.old).faults (K.seen sink.new).faults }
{
    let Entry::Out { to, datagram, .. } = entry else {
        return Served::Done;
    };
    send(to, datagram.bytes(), front, number, link, sink, lost)
}

/// Sends a datagram, which has the next number, and writes a line where it is lost.
fn send<L: Link, K: Sink>(
    to: &Address,
    datagram: &[u8],
    front: Front,
    number: &mut u64,
    link: &mut L,
    sink: &mut K,
    lost: &mut Text,
) -> Served
    ensures ends { (context : Context) → SendEnds result front number.old
        (Entry.Out to.now datagram.now context ∷ [])
        (L.seen link.old).line (L.seen link.new).line
        (K.seen sink.old).written (K.seen sink.new).written }
    ensures number { result ≡ Served.Done → number.new ≡ number.old + 1 }
    ensures link { Stays (L.seen link.old).faults (L.seen link.new).faults }
    ensures sink { CountedAt result (K.seen sink.old).faults (K.seen sink.new).faults }
{
    let sent = link.send(to, datagram);
    // A datagram that goes out has a number: more than a `u64` counts are want of memory.
    let Some(next) = number.checked_add(1) else {
        return Served::Memory;
    };
    *number = next;
    match sent {
        Sent::Done => Served::Done,
        Sent::Failed => tell_lost(front, next, sink, lost),
    }
}

/// Writes the line of a datagram that was lost.
fn tell_lost<K: Sink>(front: Front, number: u64, sink: &mut K, lost: &mut Text) -> Served
    ensures ends { LostEnds result (unsent_line front number)
        (K.seen sink.old).written (K.seen sink.new).written }
    ensures sink { CountedAt result (K.seen sink.old).faults (K.seen sink.new).faults }
{
    lost.clear();
    let Ok(()) = push_unsent(front, number, lost) else {
        return Served::Memory;
    };
    match sink.write(lost.bytes()) {
        Wrote::Done => Served::Done,
        Wrote::Failed => Served::SinkFault,
    }
}

/// Adds the line of a datagram that was lost.
#[tactic(auto, unfolding(crate::specs::Report::unsent_line))]
fn push_unsent(front: Front, number: u64, text: &mut Text) -> Result<(), AllocError>
    ensures { OnOk result (text.new ≡ text.old ++ unsent_line front number) }
{
    match front {
        Front::InReport(turn) => push_reported(turn, number, text),
        Front::InJournal => push_skipped(number, text),
    }
}

/// Adds that line as one of a report.
fn push_reported(turn: u64, number: u64, text: &mut Text) -> Result<(), AllocError>
    ensures { OnOk result (text.new ≡ text.old ++ unsent_line (Front.InReport turn) number) }
{
    text.push_number(turn)?;
    text.push(" ")?;
    text.push("self")?;
    text.push(" ")?;
    text.push_number_field("unsent ", number)?;
    text.push("\n")?;
    Ok(())
}

/// Adds that line as one that readers of journals skip.
fn push_skipped(number: u64, text: &mut Text) -> Result<(), AllocError>
    ensures { OnOk result (text.new ≡ text.old ++ unsent_line Front.InJournal number) }
{
    text.push_number_field("# unsent ", number)?;
    text.push("\n")?;
    Ok(())
}
