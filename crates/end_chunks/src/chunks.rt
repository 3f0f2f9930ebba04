//! One chunk of a datagram: it is discarded for its cause, or does what it does.

ghost use Rattle.std.specs.Prelude.{ℕ, ◌≡◌, ◌==◌, ◌||◌, ◌<◌, ◌≤◌, ◌^◌, IfOk, IsOk, OnErr, OnOk};
ghost use Rattle.std.specs.Prelude.{List, false, length, Option, None};
ghost use Rattle.rtmfp_chunks.specs.declared.kinds.TheConstants.{FRAGMENT};
ghost use Rattle.rtmfp_chunks.specs.Chunk.{chunk_of};
ghost use Rattle.rtmfp_chunks.specs.Writing.{IsWritable, chunk_bytes};
ghost use Rattle.rtmfp_packet.specs.Chunks.{shown};
ghost use Rattle.startup.specs.State.{AttemptState};
ghost use Rattle.startup.specs.Attempts.{after_change, change_keying, changed, wide};
ghost use Rattle.startup.specs.Keyings.{initiator_hello_answer};
ghost use Rattle.startup.specs.Judging.{found_in, IsFound, IsGreeted};
ghost use Rattle.endpoint_model.specs.Admission.{group_at};
ghost use Rattle.endpoint_model.specs.Effects.{IsQuiet, chunk_did, discards_for, walked};
ghost use Rattle.endpoint_model.specs.Effects.{whole_at};
ghost use Rattle.endpoint_model.specs.Causes.{chunk_cause};
ghost use Rattle.endpoint_model.specs.Sending.{sent_answer, sent_if, sent_in_session};
ghost use Rattle.endpoint_model.specs.State.{Done, nothing, with_startup};
ghost use Rattle.end_chunks.specs.Judging.{IsSo, greeting_did, hello_did, verdict_did};

use crate::closing::take_close;
use crate::flows::{Untaken, take_read};
use crate::introducing::{extend, introduce};
use crate::judging::{Verdict, judge, sid_at};
use crate::keyings::{initiator_keyed, responder_keyed};
use crate::moving::take_ping_reply;
use crate::pieces::take_piece;
use end_state::{EndState, Outbox, blank, fact_entry};
use endpoint_model::{Draws, Kind, Place, Walk, kind_of};
use rtmfp_base::Cause;
use rtmfp_chunks::ChunkView;
use rtmfp_chunks::kinds::FRAGMENT;
use rtmfp_forms::Address;
use rtmfp_fragments::Plain;
use rtmfp_packet::RawChunk;
use startup::{Found, Greeting};
use std::alloc::AllocError;

/// Does what a chunk does that isn't discarded.
fn apply(
    end: &mut EndState,
    verdict: &Verdict<'_>,
    place: Place,
    from: &Address,
    draws: &Draws,
    out: &mut Outbox,
) -> Result<(), AllocError>
    requires { IsSo end.old place from.now verdict.now }
    ensures ok { OnOk result (Done (verdict_did end.old place from.now draws.now verdict.now)
        end.new out.old out.new) }
    ensures err { OnErr result (Done (nothing end.old) end.new out.old out.new) }
    ensures quiet { verdict.now ≡ Verdict.Quiet → IsOk result }
{
    match verdict {
        Verdict::Hello { tag } => answer_hello(end, place, tag, from, out),
        Verdict::ForwardedHello { tag, to } => answer_forwarded(end, tag, to, out),
        Verdict::Introduction {
            epd,
            tag,
            near,
            row,
        } => introduce(end, place, *near, row, epd, tag, from, out),
        Verdict::Redirect { extension } => {
            let hellos = extend(end, extension, out)?;
            end.send_each(
                hellos.blanks,
                hellos.spread.addresses(),
                &hellos.spread.plain,
                out,
            );
            Ok(())
        }
        Verdict::ResponderHello { greeting, cookie } => {
            take_hello(end, place, greeting, cookie, from, out)
        }
        Verdict::CookieChange { found, new } => change_cookie(end, *found, new, out),
        Verdict::InitiatorKeying { fields, hearing } => {
            initiator_keyed(end, place, fields, hearing, from, draws, out)
        }
        Verdict::ResponderKeying { fields, peer } => {
            responder_keyed(end, sid_at(place), fields, peer, from, out)
        }
        Verdict::Reply { chunk } => reply(end, sid_at(place), from, chunk, out),
        Verdict::Close => take_close(end, sid_at(place), out),
        Verdict::CloseAck => end.finish_closing(sid_at(place), out),
        Verdict::PingReply { bytes } => take_ping_reply(end, sid_at(place), from, bytes, out),
        Verdict::Quiet => Ok(()),
    }
}

/// Answers a hello that selects this end and has this tag, which came from an address at a place.
fn answer_hello(
    end: &mut EndState,
    place: Place,
    tag: &[u8],
    from: &Address,
    out: &mut Outbox,
) -> Result<(), AllocError>
    requires { wide tag.now ≡ None }
    ensures ok { OnOk result
        (Done (sent_answer end.old (initiator_hello_answer end.old.startup tag.now from.now
        end.old.moment (group_at end.old place))) end.new out.old out.new) }
    ensures err { OnErr result (Done (nothing end.old) end.new out.old out.new) }
{
    out.make_room(1)?;
    let blank = blank(end.alloc)?;
    let group = end.group_at(place);
    let answer = end.startup.apply_hello(tag, from, end.moment, group);
    out.add_some(end.seal_answer(blank, &answer));
    Ok(())
}

/// Answers a hello that was forwarded to this end and has this tag, to an address, in the current
/// generation.
fn answer_forwarded(
    end: &mut EndState,
    tag: &[u8],
    to: &Address,
    out: &mut Outbox,
) -> Result<(), AllocError>
    requires { wide tag.now ≡ None }
    ensures ok { OnOk result
        (Done (sent_answer end.old (initiator_hello_answer end.old.startup tag.now to.now
        end.old.moment end.old.group)) end.new out.old out.new) }
    ensures err { OnErr result (Done (nothing end.old) end.new out.old out.new) }
{
    out.make_room(1)?;
    let blank = blank(end.alloc)?;
    let answer = end
        .startup
        .apply_hello(tag, to, end.moment, &end.groups.current);
    out.add_some(end.seal_answer(blank, &answer));
    Ok(())
}

/// Takes a responder's hello with this cookie, which came from an address at a place and answers
/// the attempt or the search that was found. Where no count of a startup packet is left for the
/// keying it does nothing.
fn take_hello(
    end: &mut EndState,
    place: Place,
    greeting: &Greeting,
    cookie: &[u8],
    from: &Address,
    out: &mut Outbox,
) -> Result<(), AllocError>
    requires greeted { (chosen : Option (ℕ × AttemptState)) × ((cert : List ℕ) ×
        IsGreeted end.old.startup greeting.now chosen cert) }
    requires cookie { length cookie.now ≤ 128 }
    ensures ok { OnOk result (Done (hello_did end.old (group_at end.old place)
        greeting.now.print (found_in end.old.startup greeting.now.found) from.now cookie.now)
        end.new out.old out.new) }
    ensures err { OnErr result (Done (nothing end.old) end.new out.old out.new) }
{
    if end.is_spent() {
        return Ok(());
    }
    greet(end, place, greeting, cookie, from, out)
}

/// Answers such a hello by a keying. A search starts as an attempt then.
fn greet(
    end: &mut EndState,
    place: Place,
    greeting: &Greeting,
    cookie: &[u8],
    from: &Address,
    out: &mut Outbox,
) -> Result<(), AllocError>
    requires greeted { (chosen : Option (ℕ × AttemptState)) × ((cert : List ℕ) ×
        IsGreeted end.old.startup greeting.now chosen cert) }
    requires cookie { length cookie.now ≤ 128 }
    ensures ok { OnOk result (Done (greeting_did end.old (group_at end.old place)
        greeting.now.print (found_in end.old.startup greeting.now.found) from.now cookie.now)
        end.new out.old out.new) }
    ensures err { OnErr result (Done (nothing end.old) end.new out.old out.new) }
{
    out.make_room(2)?;
    let blank = blank(end.alloc)?;
    let group = end.groups.at(&end.startup, place).copy();
    match end
        .startup
        .apply_responder_hello(greeting, cookie, from, end.moment, &group)
    {
        Ok(told) => {
            let (fact, answer) = told;
            out.add_some(fact_entry(fact));
            out.add_some(end.seal_answer(blank, &answer));
            Ok(())
        }
        Err(_) => Err(AllocError),
    }
}

/// Takes a change to this cookie, which is of the attempt that was found. Its keying goes out again
/// under its own secret.
fn change_cookie(
    end: &mut EndState,
    found: Found,
    new: &[u8],
    out: &mut Outbox,
) -> Result<(), AllocError>
    requires found { (sid : ℕ) × ((old : List ℕ) × IsFound end.old.startup found
        (changed end.old.startup.attempts sid old)) }
    requires cookie { length new.now ≤ 128 }
    ensures ok { OnOk result
        (Done (sent_if (with_startup end.old
        (after_change end.old.startup (found_in end.old.startup found) new.now end.old.moment))
        (change_keying end.old.startup (found_in end.old.startup found) new.now))
        end.new out.old out.new) }
    ensures err { OnErr result (Done (nothing end.old) end.new out.old out.new) }
{
    out.make_room(1)?;
    let blank = blank(end.alloc)?;
    let answer = end.startup.apply_cookie_change(found, new, end.moment);
    out.add_some(end.seal_answer(blank, &answer));
    Ok(())
}

/// Answers a chunk by another, in the session with this session ID, to an address.
fn reply(
    end: &mut EndState,
    near: u32,
    to: &Address,
    chunk: &ChunkView<'_>,
    out: &mut Outbox,
) -> Result<(), AllocError>
    requires writable { IsWritable (chunk_of chunk.now) }
    requires short { length (chunk_bytes (chunk_of chunk.now)) ≤ 1159 }
    ensures ok { OnOk result
        (Done (sent_in_session end.old near to.now (chunk_bytes (chunk_of chunk.now)))
        end.new out.old out.new) }
    ensures err { OnErr result (Done (nothing end.old) end.new out.old out.new) }
{
    let blanks = end.blanks(most_bytes(chunk))?;
    out.make_room(blanks.count())?;
    end.send_in_session(blanks, near, to, chunk, out);
    Ok(())
}

/// The most bytes that an answer to a chunk takes.
fn most_bytes(chunk: &ChunkView<'_>) -> usize
    requires { length (chunk_bytes (chunk_of chunk.now)) ≤ 1159 }
    ensures most { length (chunk_bytes (chunk_of chunk.now)) ≤ result }
    ensures short { result ≤ 1159 }
{
    match chunk {
        ChunkView::PingReply { bytes } => bytes.len() + 3,
        _ => 1159,
    }
}

/// The walk goes on behind a chunk that is none of flows, which is an initiator's keying or isn't.
fn go_on(walk: &mut Walk, is_keying: bool)
    ensures keyed { walk.new.keyed ≡ (walk.old.keyed || is_keying) }
    ensures gathered { walk.new.gathered ≡ walk.old.gathered }
    ensures cursor { walk.new.cursor ≡ None }
{
    walk.keyed = walk.keyed || is_keying;
    walk.cursor.other();
}

/// Takes a chunk that is no fragment: it is discarded for its cause, or does what it does, and the
/// walk goes on behind it.
fn take_other(
    end: &mut EndState,
    place: Place,
    from: &Address,
    draws: &Draws,
    walk: &mut Walk,
    chunk: &RawChunk<'_>,
    out: &mut Outbox,
) -> Result<(), AllocError>
    requires place { chunk.now.at < 2 ^ 32 }
    requires apart { (chunk.now.kind == FRAGMENT) ≡ false }
    ensures ok { OnOk result
        (Done (chunk_did place from.now draws.now walk.old end.old (shown chunk.now))
        end.new out.old out.new) }
    ensures err { OnErr result (Done (nothing end.old) end.new out.old out.new) }
    ensures walk { walk.new ≡ walked walk.old (shown chunk.now) }
    // A chunk that adds nothing but its discard asks for no memory where there is room.
    ensures enough { IsQuiet end.old place walk.old from.now (shown chunk.now) →
        discards_for (chunk_cause end.old place walk.old from.now (shown chunk.now))
        ≤ out.old.free → IsOk result }
{
    match kind_of(chunk.kind) {
        Kind::OfFlows => {
            let read = walk.cursor.read(chunk.kind, chunk.payload);
            match take_read(end, place, read, out) {
                Ok(()) => Ok(()),
                Err(Untaken::Cause(cause)) => end.discard(chunk.at, cause, out),
                Err(Untaken::Memory) => Err(AllocError),
            }
        }
        Kind::Unknown => {
            go_on(walk, false);
            end.discard(chunk.at, Cause::UnknownChunk(chunk.kind), out)
        }
        Kind::Judged(kind) => {
            let verdict = judge(end, place, walk, from, &kind, chunk);
            go_on(walk, kind.way.is_initiator_keying());
            match verdict {
                Ok(verdict) => apply(end, &verdict, place, from, draws, out),
                Err(cause) => end.discard(chunk.at, cause, out),
            }
        }
    }
}

/// Takes one chunk, which came from an address: it is discarded for its cause, or does what it
/// does, and the walk over the chunks of its packet goes on behind it. The packet that it completes,
/// where it is a piece of one, is given.
pub fn take_chunk(
    end: &mut EndState,
    place: Place,
    from: &Address,
    draws: &Draws,
    walk: &mut Walk,
    chunk: &RawChunk<'_>,
    out: &mut Outbox,
) -> Result<Option<Plain>, AllocError>
    requires { chunk.now.at < 2 ^ 32 }
    ensures ok { OnOk result
        (Done (chunk_did place from.now draws.now walk.old end.old (shown chunk.now))
        end.new out.old out.new) }
    ensures whole { IfOk result (λ plain. plain ≡ whole_at end.old place
        (chunk_cause end.old place walk.old from.now (shown chunk.now)) (shown chunk.now)) }
    ensures err { OnErr result (Done (nothing end.old) end.new out.old out.new) }
    ensures walk { walk.new ≡ walked walk.old (shown chunk.now) }
    // A chunk that adds nothing but its discard asks for no memory where there is room.
    ensures enough { IsQuiet end.old place walk.old from.now (shown chunk.now) →
        discards_for (chunk_cause end.old place walk.old from.now (shown chunk.now))
        ≤ out.old.free → IsOk result }
{
    if chunk.kind == FRAGMENT {
        let taken = take_piece(end, place, walk, chunk.at, chunk.payload, out);
        go_on(walk, false);
        return taken;
    }
    match take_other(end, place, from, draws, walk, chunk, out) {
        Ok(()) => Ok(None),
        Err(error) => Err(error),
    }
}
