//! Pieces of packets that came in a session (RFC 7016 section 2.3.1; the use inside sessions is
//! own). One is held, and the last one that was missing gives the packet.

ghost use Rattle.std.specs.Prelude.{◌≡◌, ◌⊎◌, ◌<◌, ◌≤◌, ◌^◌, if◌then◌else◌, IfErr, IfOk, IfSome};
ghost use Rattle.std.specs.Prelude.{IsOk, IsSome, None, Ok, OnErr, OnOk, Some, length, true};
ghost use Rattle.std.specs.Prelude.{option_to_list};
ghost use Rattle.std.specs.FinMap.{get};
ghost use Rattle.rtmfp_chunks.specs.FieldReading.{chunk_reading};
ghost use Rattle.rtmfp_fragments.specs.Pieces.{piece_parts};
ghost use Rattle.endpoint_model.specs.Added.{IsShort};
ghost use Rattle.endpoint_model.specs.Admission.{packet_in, sid_at};
ghost use Rattle.endpoint_model.specs.Effects.{discards_for};
ghost use Rattle.endpoint_model.specs.Gathering.{fault_entries, holds_it, is_held_piece};
ghost use Rattle.endpoint_model.specs.Gathering.{piece_cause, piece_taken_by, refused_piece};
ghost use Rattle.endpoint_model.specs.Gathering.{whole_by};
ghost use Rattle.endpoint_model.specs.State.{Done, nothing};
ghost use Rattle.end_chunks.specs.Pieces.{cause_in, fault_by_mode, fragment_of, part_cause};
ghost use Rattle.end_chunks.specs.Pieces.{part_did, part_whole};

use crate::judging::{read_formed, sid_at};
use end_state::{EndState, Outbox, fault_number, has_mode};
use endpoint_model::{Entry, Place, Walk};
use rtmfp_base::Cause;
use rtmfp_chunks::ChunkView;
use rtmfp_chunks::kinds::FRAGMENT;
use rtmfp_fragments::{Gathered, Piece, PieceRefusal, Plain};
use rtmfp_packet::{Mode, read_packet};
use std::alloc::AllocError;

/// A piece, and the id of its packet.
#[derive(Clone, Copy)]
pub(crate) struct Part<'a> {
    id: u64,
    piece: Piece<'a>,
}

/// The cause that tells why a piece is refused.
fn refused_piece(refusal: PieceRefusal) -> Cause
    ensures { result ≡ refused_piece refusal }
{
    match refusal {
        PieceRefusal::TooMany(number) => Cause::Piece(1, number),
        PieceRefusal::Conflict(number) => Cause::Piece(2, number),
        PieceRefusal::TooLong(bytes) => Cause::Piece(3, bytes),
        PieceRefusal::PacketsFull(packets) => Cause::Piece(4, packets),
        PieceRefusal::Memory => Cause::Piece(5, 0),
    }
}

/// Why a piece is discarded in a session.
fn cause_in(end: &EndState, near: u32, part: &Part<'_>) -> Option<Cause>
    ensures { result ≡ cause_in end.now.moment (get end.now.sessions near) part.now.id
        (piece_parts part.now.piece) }
{
    let Some(row) = end.sessions.row(near) else {
        return Some(Cause::WrongState);
    };
    if !row.session.is_held() {
        return Some(Cause::WrongState);
    }
    let piece = &part.piece;
    match row
        .gathering
        .refusal(part.id, piece.number, piece.more, piece.bytes, end.moment)
    {
        Some(refusal) => Some(refused_piece(refusal)),
        None => None,
    }
}

/// The piece that a fragment chunk with this payload is, or why it is discarded.
fn judge_piece<'a>(
    end: &EndState,
    place: Place,
    walk: &Walk,
    payload: &'a [u8],
) -> Result<Part<'a>, Cause>
    ensures reads { IfOk result (λ part. chunk_reading FRAGMENT payload.now
        ≡ Ok (fragment_of part)) }
    ensures none { IfOk result (λ _. part_cause end.now place walk.now payload.now ≡ None) }
    ensures taken { IfOk result (λ part. piece_cause end.now.moment
        (get end.now.sessions (sid_at place)) part.id (piece_parts part.piece) ≡ None) }
    ensures refused { IfErr result (λ cause.
        part_cause end.now place walk.now payload.now ≡ Some cause) }
{
    let view = match read_formed(FRAGMENT, payload) {
        Ok(view) => view,
        Err(cause) => return Err(cause),
    };
    let Place::Session(near) = place else {
        return Err(Cause::Fragment);
    };
    if walk.gathered {
        return Err(Cause::Fragment);
    }
    let ChunkView::Fragment {
        more,
        id,
        number,
        bytes,
    } = view
    else {
        unreachable!();
    };
    let piece = Piece {
        number,
        more,
        bytes,
    };
    let part = Part { id, piece };
    match cause_in(end, near, &part) {
        Some(cause) => Err(cause),
        None => Ok(part),
    }
}

/// How many entries a piece adds at most: none where it is held already.
fn most_told(end: &EndState, near: u32, part: &Part<'_>) -> usize
    ensures { result ≡ (if holds_it end.now.moment (get end.now.sessions near) part.now.id
        (piece_parts part.now.piece) then 0 else 1) }
{
    let Some(row) = end.sessions.row(near) else {
        return 1;
    };
    let piece = &part.piece;
    if row
        .gathering
        .holds(part.id, piece.number, piece.more, piece.bytes, end.moment)
    {
        0
    } else {
        1
    }
}

/// What is wrong with a packet that was gathered, where the peer's have this mode.
fn fault_by_mode(mode: Mode, plain: &[u8]) -> Option<Cause>
    ensures { result ≡ fault_by_mode mode (packet_in plain.now) }
{
    match read_packet(plain) {
        Ok(packet) => {
            if has_mode(packet.head(), mode) {
                None
            } else {
                Some(Cause::BadWhole(4))
            }
        }
        Err(fault) => Some(Cause::BadWhole(fault_number(fault))),
    }
}

/// The entry that tells it, at the place of the piece that completed the packet.
fn fault_entry(mode: Mode, at: usize, plain: &[u8]) -> Option<Entry>
    requires { at < 2 ^ 32 }
    ensures entries { fault_entries at (fault_by_mode mode (packet_in plain.now))
        ≡ option_to_list result }
    ensures short { IfSome result (λ entry. IsShort entry) }
{
    match fault_by_mode(mode, plain) {
        Some(cause) => Some(Entry::Discard {
            place: at as u32,
            cause,
        }),
        None => None,
    }
}

/// Takes a piece that nothing refuses, which came at a place of its packet, and gives the packet
/// that it completes.
fn gather(
    end: &mut EndState,
    near: u32,
    at: usize,
    part: &Part<'_>,
    out: &mut Outbox,
) -> Result<Option<Plain>, AllocError>
    requires place { at < 2 ^ 32 }
    requires taken { piece_cause end.old.moment (get end.old.sessions near) part.now.id
        (piece_parts part.now.piece) ≡ None }
    ensures ok { OnOk result (Done (piece_taken_by end.old near at part.now.id
        (piece_parts part.now.piece) (get end.old.sessions near)) end.new out.old out.new) }
    ensures whole { IfOk result (λ plain. plain ≡ whole_by end.old.moment
        (get end.old.sessions near) part.now.id (piece_parts part.now.piece)) }
    ensures err { OnErr result (Done (nothing end.old) end.new out.old out.new) }
    ensures held { holds_it end.old.moment (get end.old.sessions near) part.now.id
        (piece_parts part.now.piece) ≡ true → IsOk result }
{
    out.make_room(most_told(end, near, part))?;
    let mode = end.mode_at(Place::Session(near));
    match end.sessions.gather(near, part.id, &part.piece, end.moment)? {
        Gathered::Again => Ok(None),
        Gathered::Kept => Ok(None),
        Gathered::Whole(packet) => {
            out.add_some(fault_entry(mode, at, packet.as_slice()));
            Ok(Some(packet))
        }
    }
}

/// Takes a fragment chunk with this payload, which came at a place of its packet behind those that
/// were gone through: it is discarded for its cause, or its piece is taken. The packet that it
/// completes is given.
pub(crate) fn take_piece(
    end: &mut EndState,
    place: Place,
    walk: &Walk,
    at: usize,
    payload: &[u8],
    out: &mut Outbox,
) -> Result<Option<Plain>, AllocError>
    requires { at < 2 ^ 32 }
    ensures ok { OnOk result
        (Done (part_did end.old place walk.now at payload.now) end.new out.old out.new) }
    ensures whole { IfOk result (λ plain. plain ≡ part_whole end.old place
        (part_cause end.old place walk.now payload.now) payload.now) }
    ensures err { OnErr result (Done (nothing end.old) end.new out.old out.new) }
    ensures enough { IsSome (part_cause end.old place walk.now payload.now)
        ⊎ (is_held_piece end.old (sid_at place) (chunk_reading FRAGMENT payload.now) ≡ true) →
        discards_for (part_cause end.old place walk.now payload.now) ≤ out.old.free → IsOk result }
{
    match judge_piece(end, place, walk, payload) {
        Ok(part) => gather(end, sid_at(place), at, &part, out),
        Err(cause) => match end.discard(at, cause, out) {
            Ok(()) => Ok(None),
            Err(error) => Err(error),
        },
    }
}
