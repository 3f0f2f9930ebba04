//! One datagram: it is refused as a whole, or its chunks are gone through, one after another.

ghost use Rattle.std.specs.Prelude.{◌≡◌, ◌+◌, ◌<◌, ◌≤◌, ◌^◌, IfErr, IfOk, IsOk, OnErr, OnOk};
ghost use Rattle.std.specs.Prelude.{false, length, true};
ghost use Rattle.std.specs.List.{AllByRecursion};
ghost use Rattle.rtmfp_packet.specs.Chunks.{left, shown};
ghost use Rattle.endpoint_model.specs.Admission.{confirming, confirms, counted_at, packet_in};
ghost use Rattle.endpoint_model.specs.Admission.{timed_at};
ghost use Rattle.endpoint_model.specs.Effects.{AreQuiet, EndsQuietly, discarded};
ghost use Rattle.endpoint_model.specs.Effects.{discards_among, in_order, inset, most_acks, outset};
ghost use Rattle.endpoint_model.specs.Effects.{steps_did, steps_of, walked, walked_and_tested};
ghost use Rattle.endpoint_model.specs.Effects.{with_gathered};
ghost use Rattle.endpoint_model.specs.FlowChunks.{acked, owes_at, unowed};
ghost use Rattle.endpoint_model.specs.Log.{not_taken};
ghost use Rattle.endpoint_model.specs.State.{Done, nothing};
ghost use Rattle.end_loops.specs.Walks.{StopsIn, StopsOwing, TakesAll, TakesSome};
ghost use Rattle.end_loops.specs.Walks.{gathered_steps, taken_upto};

use crate::admission::packet_at;
use crate::testing::test;
use end_chunks::take_chunk;
use end_state::{EndState, Outbox};
use endpoint_model::{Draws, Entry, Place, Stopped, Walk};
use rtmfp_base::Cause;
use rtmfp_data_chunks::DataCursor;
use rtmfp_forms::Address;
use rtmfp_fragments::Plain;
use rtmfp_packet::{Chunks, PacketHead, RawChunk};
use std::alloc::AllocError;

/// The most packets of acks that a datagram's chunks can owe, one for each flow (own).
const MOST_ACKS: u32 = 256;

/// The most bytes of the chunks of a packet (own).
pub(crate) const BODY: usize = 1159;

/// No memory was found before the datagram was taken.
pub const NOT_TAKEN: Stopped = Stopped {
    taken: false,
    chunks: 0,
};

/// Refuses a datagram that wasn't opened.
pub fn refuse_unopened(end: &mut EndState, cause: Cause, out: &mut Outbox) -> Result<(), Stopped>
    ensures ok { OnOk result (Done (discarded end.old 0 cause) end.new out.old out.new) }
    ensures stop { IfErr result (λ stop. (stop ≡ not_taken) ×
        Done (nothing end.old) end.new out.old out.new) }
    ensures enough { 0 < out.old.free → IsOk result }
{
    match end.discard(0, cause, out) {
        Ok(()) => Ok(()),
        Err(_) => Err(NOT_TAKEN),
    }
}

/// Refuses a datagram that was opened at a place, which counts there.
pub fn refuse(
    end: &mut EndState,
    place: Place,
    part: &[u8],
    cause: Cause,
    out: &mut Outbox,
) -> Result<(), Stopped>
    requires { 32 ≤ length part.now }
    ensures ok { OnOk result (Done (discarded (counted_at end.old place part.now) 0 cause)
        end.new out.old out.new) }
    ensures stop { IfErr result (λ stop. (stop ≡ not_taken) ×
        Done (nothing end.old) end.new out.old out.new) }
    ensures enough { 0 < out.old.free → IsOk result }
{
    match out.make_room(1) {
        Ok(()) => {}
        Err(_) => return Err(NOT_TAKEN),
    }
    end.count(place, part);
    out.add(Entry::Discard { place: 0, cause });
    Ok(())
}

/// Finds room for the fact that confirms a session, where a datagram at a place does so.
fn make_room_to_confirm(end: &EndState, place: Place, out: &mut Outbox) -> Result<(), AllocError>
    ensures ok { OnOk result (confirms end.now place ≡ true → 0 < out.new.free) }
    ensures err { OnErr result (confirms end.now place ≡ true) }
    ensures entries { out.new.entries ≡ out.old.entries }
    ensures free { out.old.free ≤ out.new.free }
    ensures room { out.new.room ≡ out.old.room }
{
    if end.confirms(place) {
        out.make_room(1)
    } else {
        Ok(())
    }
}

/// Counts a datagram as taken at a place, and confirms a half-open session.
pub fn enter(
    end: &mut EndState,
    place: Place,
    part: &[u8],
    head: &PacketHead,
    out: &mut Outbox,
) -> Result<(), AllocError>
    requires { 32 ≤ length part.now }
    ensures ok { OnOk result
        (Done (confirming (timed_at (counted_at end.old place part.now) place head.now) place)
        end.new out.old out.new) }
    ensures err { OnErr result (Done (nothing end.old) end.new out.old out.new) }
    ensures confirms { OnErr result (confirms end.old place ≡ true) }
{
    make_room_to_confirm(end, place, out)?;
    end.count(place, part);
    end.time(place, head);
    if let Some(entry) = end.confirm(place) {
        out.add(entry);
    }
    Ok(())
}

/// Goes through the chunks of a packet that was gathered at a place, and says how many they were.
/// Where no memory is found it says how many were gone through.
fn go_through_gathered(
    end: &mut EndState,
    place: Place,
    from: &Address,
    draws: &Draws,
    mut chunks: Chunks<'_>,
    out: &mut Outbox,
) -> Result<u32, u32>
    requires near { AllByRecursion (λ c. c.at < 2 ^ 32) (left chunks) }
    requires few { length (left chunks) ≤ 4096 }
    ensures ok { IfOk result (TakesAll place from.now draws.now end.old
        (in_order inset (left chunks.entry)) end.new out.old out.new) }
    ensures stop { IfErr result (TakesSome place from.now draws.now end.old
        (in_order inset (left chunks.entry)) end.new out.old out.new) }
    ensures few { IfOk result (λ count. count ≤ 4096) }
    ensures fewer { IfErr result (λ count. count ≤ 4096) }
    ensures enough { AreQuiet place from.now draws.now end.old (in_order inset (left chunks.entry)) →
        discards_among place from.now draws.now end.old (in_order inset (left chunks.entry))
        ≤ out.old.free → IsOk result }
{
    let mut gone = 0u32;
    let mut walk = Walk {
        keyed: false,
        gathered: true,
        cursor: DataCursor::new(),
    };
    while let Some(chunk) = chunks.next() {
        match take_chunk(end, place, from, draws, &mut walk, &chunk, out) {
            Ok(whole) => {
                // No piece of a packet stands in one that was gathered, so this is none.
                drop(whole);
                gone += 1;
            }
            Err(_) => return Err(gone),
        }
    }
    Ok(gone)
}

/// Goes through a packet that was gathered at a place: through its chunks, where it reads and has
/// the mode of that place.
fn go_through_whole(
    end: &mut EndState,
    place: Place,
    from: &Address,
    draws: &Draws,
    plain: &Plain,
    out: &mut Outbox,
) -> Result<u32, u32>
    requires { length plain.now ≤ 4096 }
    ensures ok { IfOk result (TakesAll place from.now draws.now end.old
        (gathered_steps end.old place (packet_in plain.now)) end.new out.old out.new) }
    ensures stop { IfErr result (TakesSome place from.now draws.now end.old
        (gathered_steps end.old place (packet_in plain.now)) end.new out.old out.new) }
    ensures few { IfOk result (λ count. count ≤ 4096) }
    ensures fewer { IfErr result (λ count. count ≤ 4096) }
    ensures enough { AreQuiet place from.now draws.now end.old
        (gathered_steps end.old place (packet_in plain.now)) →
        discards_among place from.now draws.now end.old
        (gathered_steps end.old place (packet_in plain.now)) ≤ out.old.free → IsOk result }
{
    match packet_at(end, place, plain.as_slice()) {
        Ok(packet) => go_through_gathered(end, place, from, draws, packet.chunks(), out),
        Err(_) => Ok(0),
    }
}

/// Goes through one chunk of a datagram, and behind it through the packet that it completes, where
/// it does. It says how many chunks were gone through.
fn go_on_with(
    end: &mut EndState,
    place: Place,
    from: &Address,
    draws: &Draws,
    walk: &mut Walk,
    chunk: &RawChunk<'_>,
    out: &mut Outbox,
) -> Result<u32, u32>
    requires { chunk.now.at < 2 ^ 32 }
    ensures ok { IfOk result (TakesAll place from.now draws.now end.old
        (with_gathered place from.now walk.old end.old (shown chunk.now)) end.new out.old
        out.new) }
    ensures stop { IfErr result (TakesSome place from.now draws.now end.old
        (with_gathered place from.now walk.old end.old (shown chunk.now)) end.new out.old
        out.new) }
    ensures walk { walk.new ≡ walked walk.old (shown chunk.now) }
    ensures few { IfOk result (λ count. count ≤ 4097) }
    ensures fewer { IfErr result (λ count. count ≤ 4097) }
    ensures enough { AreQuiet place from.now draws.now end.old
        (with_gathered place from.now walk.old end.old (shown chunk.now)) →
        discards_among place from.now draws.now end.old
        (with_gathered place from.now walk.old end.old (shown chunk.now)) ≤ out.old.free →
        IsOk result }
{
    let plain = match take_chunk(end, place, from, draws, walk, chunk, out) {
        Ok(Some(plain)) => plain,
        Ok(None) => return Ok(1),
        Err(_) => return Err(0),
    };
    match go_through_whole(end, place, from, draws, &plain, out) {
        Ok(count) => Ok(count + 1),
        Err(count) => Err(count + 1),
    }
}

/// Goes through the chunks of a datagram, and behind each one that completes a packet through those
/// of that packet, sends the acks that they owe, and tests the address that the datagram came from
/// then.
pub fn go_through(
    end: &mut EndState,
    place: Place,
    from: &Address,
    draws: &Draws,
    mut chunks: Chunks<'_>,
    out: &mut Outbox,
) -> Result<(), Stopped>
    requires near { AllByRecursion (λ c. c.at < 2 ^ 32) (left chunks) }
    requires few { length (left chunks) ≤ 4096 }
    ensures ok { OnOk result
        (Done (walked_and_tested place from.now draws.now end.old
        (steps_of place from.now draws.now outset end.old (left chunks.entry))) end.new
        out.old out.new) }
    ensures stop { IfErr result (StopsIn place from.now draws.now end.old
        (steps_of place from.now draws.now outset end.old (left chunks.entry)) end.new
        out.old out.new) }
    ensures enough { AreQuiet place from.now draws.now end.old
        (steps_of place from.now draws.now outset end.old (left chunks.entry)) →
        EndsQuietly from.now place (steps_did place from.now draws.now end.old
        (steps_of place from.now draws.now outset end.old (left chunks.entry))).state →
        discards_among place from.now draws.now end.old
        (steps_of place from.now draws.now outset end.old (left chunks.entry))
        ≤ out.old.free → IsOk result }
{
    let mut gone = 0u32;
    let mut walk = Walk {
        keyed: false,
        gathered: false,
        cursor: DataCursor::new(),
    };
    while let Some(chunk) = chunks.next() {
        match go_on_with(end, place, from, draws, &mut walk, &chunk, out) {
            Ok(count) => gone += count,
            Err(count) => return Err(stop(end, place, gone + count)),
        }
    }
    match send_acks(end, place, out) {
        Ok(()) => {}
        Err(_) => return Err(stop(end, place, gone)),
    }
    match test(end, place, from, draws, out) {
        Ok(()) => Ok(()),
        Err(_) => Err(stop(end, place, gone)),
    }
}

/// Sends the acks that the chunks of a datagram at a place owe, packet after packet.
fn send_acks(end: &mut EndState, place: Place, out: &mut Outbox) -> Result<(), AllocError>
    ensures ok { OnOk result (Done (acked most_acks end.old place) end.new out.old out.new) }
    ensures err { OnErr result (StopsOwing place end.old end.new out.old out.new) }
    ensures enough { owes_at end.old place ≡ false → IsOk result }
{
    let near = match place {
        Place::Startup { .. } => return Ok(()),
        Place::Attempt { .. } => return Ok(()),
        Place::Session(near) => near,
    };
    for _ in 0..MOST_ACKS {
        if !end.owes_acks(near) {
            return Ok(());
        }
        let blanks = end.blanks(BODY)?;
        out.make_room(blanks.count())?;
        end.send_acks(blanks, near, out);
    }
    Ok(())
}

/// No memory was found behind so many chunks of a datagram that was taken at a place. The acks that
/// are owed there aren't sent any more.
fn stop(end: &mut EndState, place: Place, chunks: u32) -> Stopped
    ensures state { end.new ≡ unowed end.old place }
    ensures stop { result ≡ taken_upto chunks }
{
    forget_acks(end, place);
    Stopped {
        taken: true,
        chunks,
    }
}

/// The acks that are owed at a place aren't sent any more.
fn forget_acks(end: &mut EndState, place: Place)
    ensures { end.new ≡ unowed end.old place }
{
    match place {
        Place::Startup { .. } => {}
        Place::Attempt { .. } => {}
        Place::Session(near) => end.forget_acks(near),
    }
}
