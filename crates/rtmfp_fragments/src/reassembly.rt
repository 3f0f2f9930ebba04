//! The packets that pieces are held of. Everything here is own.

ghost use Rattle.std.specs.Prelude.{◌≡◌, ◌≤◌, ◌<◌, ◌+◌, [], length, false, None, OnOk, OnErr, IfOk, slice_set, slice_index_or, position};
ghost use Rattle.rtmfp_fragments.specs.Pieces.{piece, piece_parts};
ghost use Rattle.rtmfp_fragments.specs.Held.{PacketParts, IsWithinLimits, kept_at, is_known, is_again, pieces_under, held_bytes, without, with_piece, with_one_more, is_held};
ghost use Rattle.rtmfp_fragments.specs.Answers.{TakesIt, Gathers, LacksMemory, piece_refusal, refusal_at};

use crate::held::{HeldPiece, Packet, conflicts, is_again, is_whole, join};
use crate::outcome::{Gathered, PieceRefusal, Plain};
use crate::pieces::{MOST_BYTES, MOST_PIECES, Piece};
use std::alloc::{AllocError, Global};
use std::marker::Model;

/// Of so many packets pieces are held (own).
const MOST_PACKETS: usize = 4;

/// The packets of which pieces are held, by their ids: at most 4 packets, of at most 64 pieces and
/// 4,096 bytes each. Contracts see the list of them, in the order in which their first pieces were
/// taken, each with its pieces in the order in which they were taken.
#[derive(Drop)]
pub struct Reassembly {
    alloc: Global,
    packets: Vec<Packet>,
}

impl Model for Reassembly {
    ghost use Rattle.std.specs.Prelude.{List};
    ghost use Rattle.rtmfp_fragments.specs.Held.{PacketParts, IsWithinLimits};

    ghost Value = { List PacketParts };

    ghost view = { λ r. r.packets.items };

    ghost invariant = { λ r. IsWithinLimits r.packets.items };
}

/// Where the packet of an id stands, if its time isn't over.
fn place_of(packets: &[Packet], id: u64, moment: u64) -> Option<usize>
    ensures { result ≡ position (is_held id moment) packets.now }
{
    packets
        .iter()
        .position(|p| p.is_kept(moment) && p.has_id(id))
}

/// Whether a packet that is kept has this id.
fn is_known(packets: &[Packet], id: u64, moment: u64) -> bool
    ensures { result ≡ is_known id (kept_at moment packets.now) }
{
    let mut rest = packets;
    while let [first, others @ ..] = rest {
        if first.is_kept(moment) && first.has_id(id) {
            return true;
        }
        rest = others;
    }
    false
}

/// How many packets are kept.
fn count_kept(packets: &[Packet], moment: u64) -> usize
    ensures { result ≡ length (kept_at moment packets.now) }
{
    let mut rest = packets;
    let mut count: usize = 0;
    while let [first, others @ ..] = rest {
        if first.is_kept(moment) {
            count += 1;
        }
        rest = others;
    }
    count
}

/// The pieces that are held under an id.
fn pieces_under(packets: &[Packet], id: u64, moment: u64) -> &[HeldPiece]
    ensures { result.now ≡ pieces_under id (kept_at moment packets.now) }
{
    let mut rest = packets;
    while let [first, others @ ..] = rest {
        if first.is_kept(moment) && first.has_id(id) {
            return first.pieces();
        }
        rest = others;
    }
    &[]
}

/// How many bytes are held under an id.
fn held_under(packets: &[Packet], id: u64, moment: u64) -> usize
    ensures bytes { result ≡ held_bytes (pieces_under id (kept_at moment packets.now)) }
    ensures few { result ≤ 4096 }
{
    let mut rest = packets;
    while let [first, others @ ..] = rest {
        if first.is_kept(moment) && first.has_id(id) {
            return first.held();
        }
        rest = others;
    }
    0
}

/// Why a piece that isn't held isn't taken.
fn piece_refusal(packets: &[Packet], id: u64, x: &Piece<'_>, moment: u64) -> Option<PieceRefusal>
    ensures { result ≡ piece_refusal id (piece_parts x.now) (kept_at moment packets.now) }
{
    if x.number >= MOST_PIECES as u64 {
        return Some(PieceRefusal::TooMany(x.number));
    }
    if conflicts(pieces_under(packets, id, moment), x) {
        return Some(PieceRefusal::Conflict(x.number));
    }
    let held = held_under(packets, id, moment);
    if x.bytes.len() > MOST_BYTES - held {
        return Some(PieceRefusal::TooLong(held as u64));
    }
    let count = count_kept(packets, moment);
    if count >= MOST_PACKETS && !is_known(packets, id, moment) {
        return Some(PieceRefusal::PacketsFull(count as u64));
    }
    None
}

/// Why a piece isn't taken. Packets whose time is over count as not held.
fn refusal_at(packets: &[Packet], id: u64, x: &Piece<'_>, moment: u64) -> Option<PieceRefusal>
    ensures { result ≡ refusal_at moment id (piece_parts x.now) packets.now }
{
    if is_again(pieces_under(packets, id, moment), x) {
        return None;
    }
    piece_refusal(packets, id, x, moment)
}

/// Holds one more piece of a packet that has some.
fn add(packets: &mut [Packet], at: usize, alloc: Global, x: &Piece<'_>) -> Result<(), AllocError>
    requires there { at < length packets.old }
    requires room { (p : PacketParts) → held_bytes (slice_index_or packets.old at p).pieces
        + length x.now.bytes.now ≤ 4096 }
    ensures ok { OnOk result ((p : PacketParts) → packets.new ≡ slice_set packets.old at
        (with_one_more (slice_index_or packets.old at p) (piece_parts x.now))) }
    ensures err { OnErr result (packets.new ≡ packets.old) }
{
    let p = &mut packets[at];
    p.add(alloc, x)
}

/// Forgets a packet.
fn forget(packets: &mut Vec<Packet>, id: u64)
    ensures { packets.new.items ≡ without id packets.old.items }
{
    packets.retain(|p| !p.has_id(id));
}

/// Forgets the packets whose first piece was taken 5,000 ms or more before.
fn forget_old(packets: &mut Vec<Packet>, moment: u64)
    ensures { packets.new.items ≡ kept_at moment packets.old.items }
{
    packets.retain(|p| p.is_kept(moment));
}

/// Holds one more piece, in its packet or in a new one. Packets whose time is over are still there.
fn hold(
    packets: &mut Vec<Packet>,
    alloc: Global,
    id: u64,
    x: &Piece<'_>,
    moment: u64,
) -> Result<(), AllocError>
    requires { held_bytes (pieces_under id (kept_at moment packets.old.items))
        + length x.now.bytes.now ≤ 4096 }
    ensures ok { OnOk result (kept_at moment packets.new.items
        ≡ with_piece id moment (piece_parts x.now) (kept_at moment packets.old.items)) }
    ensures err { OnErr result (packets.new.items ≡ packets.old.items) }
{
    if let Some(at) = place_of(packets, id, moment) {
        return add(packets, at, alloc, x);
    }
    packets.push(Packet::one(alloc, id, moment, x)?)?;
    Ok(())
}

/// Takes a piece that isn't refused. Memory is found before anything changes.
fn gather(
    packets: &mut Vec<Packet>,
    alloc: Global,
    id: u64,
    x: &Piece<'_>,
    moment: u64,
) -> Result<Gathered, AllocError>
    requires within { IsWithinLimits packets.old.items }
    requires free { refusal_at moment id (piece_parts x.now) packets.old.items ≡ None }
    ensures ok { IfOk result (λ gathered. Gathers packets.old.items packets.new.items id
        (piece_parts x.now) moment gathered) }
    ensures err { OnErr result (packets.new.items ≡ packets.old.items) }
    ensures is_new { OnErr result (is_again (piece_parts x.now)
        (pieces_under id (kept_at moment packets.old.items)) ≡ false) }
{
    if is_again(pieces_under(packets, id, moment), x) {
        forget_old(packets, moment);
        return Ok(Gathered::Again);
    }
    if is_whole(pieces_under(packets, id, moment), &*x) {
        let all = join(alloc, pieces_under(packets, id, moment), &*x)?;
        forget_old(packets, moment);
        forget(packets, id);
        return Ok(Gathered::Whole(Plain::new(all)));
    }
    hold(packets, alloc, id, x, moment)?;
    forget_old(packets, moment);
    Ok(Gathered::Kept)
}

impl Reassembly {
    /// No piece is held. It takes no memory.
    pub fn new(alloc: Global) -> Reassembly
        ensures { result ≡ [] }
    {
        Reassembly {
            alloc,
            packets: Vec::new(alloc),
        }
    }

    /// Takes a piece of the packet that has this id: its number (from 0), whether more follow, and
    /// its bytes. The moment is in milliseconds and doesn't fall. Before anything else it forgets
    /// each packet whose first piece was taken 5,000 ms or more before. `Gathered` says what the
    /// piece was, and `PieceRefusal` has the reasons why it isn't held, in their order; after each
    /// of these nothing but the forgetting has changed.
    pub fn take(
        &mut self,
        id: u64,
        number: u64,
        more: bool,
        bytes: &[u8],
        moment: u64,
    ) -> Result<Gathered, PieceRefusal>
        ensures exact { TakesIt self.old self.new id (piece number more bytes.now) moment result }
        ensures memory { LacksMemory (kept_at moment self.old) self.new id
            (piece number more bytes.now) result }
        ensures limits { IsWithinLimits self.new }
    {
        let x = Piece {
            number,
            more,
            bytes,
        };
        if let Some(refusal) = refusal_at(&self.packets, id, &x, moment) {
            forget_old(&mut self.packets, moment);
            return Err(refusal);
        }
        match gather(&mut self.packets, self.alloc, id, &x, moment) {
            Ok(gathered) => Ok(gathered),
            Err(_) => {
                forget_old(&mut self.packets, moment);
                Err(PieceRefusal::Memory)
            }
        }
    }

    /// Why `take` wouldn't take this piece at this moment, but for want of memory. It takes no
    /// memory and changes nothing: packets whose time is over count as not held, and stay.
    pub fn refusal(
        &self,
        id: u64,
        number: u64,
        more: bool,
        bytes: &[u8],
        moment: u64,
    ) -> Option<PieceRefusal>
        ensures { result ≡ refusal_at moment id (piece number more bytes.now) self.now }
    {
        let x = Piece {
            number,
            more,
            bytes,
        };
        refusal_at(&self.packets, id, &x, moment)
    }

    /// Whether this very piece is held at this moment.
    pub fn holds(&self, id: u64, number: u64, more: bool, bytes: &[u8], moment: u64) -> bool
        ensures { result ≡ is_again (piece number more bytes.now)
            (pieces_under id (kept_at moment self.now)) }
    {
        let x = Piece {
            number,
            more,
            bytes,
        };
        is_again(pieces_under(&self.packets, id, moment), &x)
    }

    /// Takes a piece that isn't refused at this moment, as `take` does. Where no memory is found,
    /// nothing has changed: old packets are still there too.
    pub fn gather(
        &mut self,
        id: u64,
        number: u64,
        more: bool,
        bytes: &[u8],
        moment: u64,
    ) -> Result<Gathered, AllocError>
        requires { refusal_at moment id (piece number more bytes.now) self.old ≡ None }
        ensures ok { IfOk result (λ gathered. Gathers self.old self.new id
            (piece number more bytes.now) moment gathered) }
        ensures err { OnErr result (self.new ≡ self.old) }
        ensures is_new { OnErr result (is_again (piece number more bytes.now)
            (pieces_under id (kept_at moment self.old)) ≡ false) }
        ensures limits { IsWithinLimits self.new }
    {
        let x = Piece {
            number,
            more,
            bytes,
        };
        gather(&mut self.packets, self.alloc, id, &x, moment)
    }
}
