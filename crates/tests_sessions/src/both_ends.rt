//! A sender and a receiver of a flow.

use crate::sending::PLAIN;
use flow_recv::{FlowReceiver, Took};
use flow_send::FlowSender;
use rtmfp_base::Memory;
use rtmfp_data_chunks::{DataCursor, DataView};
use rtmfp_forms::Outgoing;
use std::alloc::Global;

/// Hands the next chunk of the sender to the receiver.
fn pass_on(from: &mut FlowSender, to: &mut FlowReceiver, moment: u64) -> Option<Took> {
    let pick = from.next_chunk(true, 1164, 0, 4380, moment, 1000).ok()?;
    let chunk = from.chunk(pick, true);
    if chunk.forward < chunk.seq || (chunk.abandon && chunk.forward == chunk.seq) {
        to.take(&chunk).ok()
    } else {
        None
    }
}

/// Hands an ack of the receiver to the sender; the bytes that it acknowledges.
fn acknowledge(from: &FlowReceiver, to: &mut FlowSender) -> Option<u64> {
    let mut out = Outgoing::new(0x01);
    from.ack_into(2, &mut out).ok()?;
    let payload = out.bytes().get(4..)?;
    let mut cursor = DataCursor::new();
    match cursor.read(0x51, payload) {
        Ok(view) => taken(&view, to),
        Err(_) => None,
    }
}

fn taken(view: &DataView<'_>, to: &mut FlowSender) -> Option<u64> {
    match view {
        DataView::AckRanges { blocks, upto, .. } => {
            let acked = to.take_ack(*blocks, *upto, view.acked()).ok()?;
            Some(acked.bytes)
        }
        _ => None,
    }
}

/// Whether the next chunk of a sender is its end, with number 3, which tells that the two numbers
/// before it are given up.
fn is_the_end(from: &mut FlowSender) -> bool {
    let Ok(pick) = from.offers(true, 1164, 0, 4380, 1, 1000) else {
        return false;
    };
    from.send(pick, 1);
    let chunk = from.chunk(pick, false);
    (chunk.abandon, chunk.last, chunk.seq, chunk.forward) == (true, true, 3, 2)
}

/// Gives a message up, and finishes the flow.
fn gives_up(from: &mut FlowSender) -> bool {
    from.abandon(1) == Ok(()) && from.finish() == Some(3)
}

/// Whether a message is given up of which the first fragment has arrived, and the flow finished.
fn is_given_up(from: &mut FlowSender, to: &mut FlowReceiver) -> bool {
    from.queue(&[0x61; 1001], PLAIN) == Ok(1)
        && pass_on(from, to, 0) == Some(Took::New)
        && acknowledge(to, from) == Some(1000)
        && gives_up(from)
}

/// Whether an end and a notice are taken.
fn are_taken(from: &mut FlowSender, to: &mut FlowReceiver) -> bool {
    is_the_end(from)
        && pass_on(from, to, 2) == Some(Took::ForwardOnly)
        && from.find_lost(1001, 1000)
        && pass_on(from, to, 1001) == Some(Took::ForwardOnly)
}

/// Whether an end and a notice are taken, after a message that is given up.
fn ends_after_an_abandoned_message(alloc: Global) -> Result<bool, Memory> {
    let mut from = FlowSender::new(alloc, 2, &[], None, 0, 1)?;
    let mut to = FlowReceiver::new(alloc, 0);
    Ok(is_given_up(&mut from, &mut to) && are_taken(&mut from, &mut to))
}

#[test]
fn an_end_and_a_notice_are_taken(rt: HostRuntime) -> Result<(), Memory> {
    assert!(rt; ends_after_an_abandoned_message(rt.alloc())?);
    Ok(())
}
