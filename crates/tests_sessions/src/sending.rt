//! A sender of a flow.

use flow_send::{FlowSender, MessageOptions, NoChunk, Pick, QueueRefusal};
use rtmfp_base::Memory;
use rtmfp_data_chunks::UserData;
use std::alloc::Global;

pub(crate) const PLAIN: MessageOptions = MessageOptions {
    deadline: None,
    resends: None,
};

/// A message of the greatest length.
fn largest(alloc: Global) -> Result<Vec<u8>, Memory> {
    let mut bytes = Vec::new(alloc);
    bytes.resize(1_048_576, 0x55)?;
    Ok(bytes)
}

/// Whether two messages are queued.
fn queues_two(flow: &mut FlowSender, bytes: &[u8]) -> bool {
    flow.queue(bytes, PLAIN) == Ok(1) && flow.queue(bytes, PLAIN) == Ok(1050)
}

/// Whether a sender holds no byte more, but a message without bytes and an end.
fn is_full(flow: &mut FlowSender) -> bool {
    flow.queue(&[0x55], PLAIN) == Err(QueueRefusal::Backlog(2_097_152))
        && flow.queue(&[], PLAIN) == Ok(2099)
        && flow.finish() == Some(2100)
}

/// Whether a sender holds two messages of the greatest length, and no byte more.
fn holds_two_messages(alloc: Global) -> Result<bool, Memory> {
    let largest = largest(alloc)?;
    let mut flow = FlowSender::new(alloc, 2, &[], None, 0, 1)?;
    Ok(queues_two(&mut flow, largest.as_slice()) && is_full(&mut flow))
}

/// Whether a message is queued, and its first chunk has no room in 1,013 bytes.
fn has_no_room(flow: &mut FlowSender) -> bool {
    flow.queue(&[0x55; 1000], PLAIN) == Ok(1)
        && flow.next_chunk(true, 1013, 0, 4380, 0, 1000) == Err(NoChunk::Room)
}

/// Whether a chunk is the first one, with these options.
fn is_first(chunk: &UserData<'_>) -> bool {
    let Some(options) = &chunk.options else {
        return false;
    };
    (chunk.flow, chunk.seq, chunk.forward) == (2, 1, 0)
        && chunk.bytes == [0x55; 1000].as_slice()
        && options.bytes() == [0x02, 0x00, 0x61, 0x02, 0x0a, 0x05, 0x00].as_slice()
}

/// Whether the first chunk has room in 1,014 bytes.
fn has_room(flow: &mut FlowSender) -> bool {
    let Ok(pick) = flow.next_chunk(true, 1014, 0, 4380, 0, 1000) else {
        return false;
    };
    pick == Pick::Row(0) && is_first(&flow.chunk(pick, true))
}

/// Whether the first chunk of a flow has these options, and its head, its numbers and they fill a
/// room of 14 bytes before the fragment: 4 bytes, 3 numbers of a byte, and 7 bytes.
fn begins_with_options(alloc: Global) -> Result<bool, Memory> {
    let mut flow = FlowSender::new(alloc, 2, &[0x61], Some(5), 3, 1)?;
    Ok(has_no_room(&mut flow) && has_room(&mut flow))
}

#[test]
fn a_sender_holds_and_sends(rt: HostRuntime) -> Result<(), Memory> {
    assert!(rt; holds_two_messages(rt.alloc())?);
    assert!(rt; begins_with_options(rt.alloc())?);
    Ok(())
}
