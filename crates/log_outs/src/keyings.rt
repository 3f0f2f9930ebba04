//! All keyings in a packet that goes out.

ghost use Rattle.rtmfp_packet.specs.Chunks.{shown};
ghost use Rattle.endpoint_model.specs.Keying.{chunks_of};
ghost use Rattle.log_packets.specs.Asked.{Tells};
ghost use Rattle.log_outs.specs.Answers.{TellsUnder};
ghost use Rattle.log_outs.specs.Keyings.{ChunkMay, Each, InitiatorsMay, RespondersMay};

use crate::attempts::initiator_may;
use crate::births::responder_may;
use crate::sender::{Cause, Sender};
use crypto_profile::Context;
use log_packets::{initiator_keying, responder_keying};
use rtmfp_packet::{Packet, RawChunk};

/// Whether a chunk may go out, if it is an initiator's keying.
fn initiators_may(
    sender: &Sender<'_>,
    why: &Cause<'_>,
    context: &Context,
    chunk: &RawChunk<'_>,
) -> bool
    ensures { Tells (InitiatorsMay sender.now why.now context.now (shown chunk.now)) result }
{
    match initiator_keying(chunk) {
        Some(keying) => initiator_may(sender, why, context, &keying),
        None => true,
    }
}

/// Whether it may, if it is a responder's keying.
fn responders_may(sender: &Sender<'_>, context: &Context, sid: u32, chunk: &RawChunk<'_>) -> bool
    ensures { TellsUnder sid (λ id. RespondersMay sender.now context.now id (shown chunk.now))
        result }
{
    match responder_keying(chunk) {
        Some(keying) => responder_may(sender, context, sid, &keying),
        None => true,
    }
}

/// Whether a chunk may go out, as far as keyings are asked.
fn chunk_may(
    sender: &Sender<'_>,
    why: &Cause<'_>,
    context: &Context,
    sid: u32,
    chunk: &RawChunk<'_>,
) -> bool
    ensures { TellsUnder sid (λ id. ChunkMay sender.now why.now context.now id (shown chunk.now))
        result }
{
    if !initiators_may(sender, why, context, chunk) {
        return false;
    }
    responders_may(sender, context, sid, chunk)
}

/// Whether each keying of a packet may go out in this context under this session ID.
pub(crate) fn keyings_may(
    sender: &Sender<'_>,
    why: &Cause<'_>,
    context: &Context,
    sid: u32,
    packet: &Packet<'_>,
) -> bool
    ensures { TellsUnder sid (λ id. Each (ChunkMay sender.now why.now context.now id)
        (chunks_of packet.now)) result }
{
    let mut chunks = packet.chunks();
    while let Some(chunk) = chunks.next() {
        if !chunk_may(sender, why, context, sid, &chunk) {
            return false;
        }
    }
    true
}
