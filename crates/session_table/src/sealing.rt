//! Datagrams of a session.

ghost use Rattle.std.specs.Prelude.{◌≡◌, ◌≤◌, ◌+◌, IfSome, Some, false, length};
ghost use Rattle.std.specs.FinMap.{get};
ghost use Rattle.rtmfp_chunks.specs.Chunk.{Fragment, chunk_of};
ghost use Rattle.rtmfp_chunks.specs.Writing.{IsWritable, chunk_bytes};
ghost use Rattle.packet_scramble.specs.Datagram.{datagram};
ghost use Rattle.rtmfp_fragments.specs.Pieces.{piece_parts};
ghost use Rattle.session_core.specs.Sealed.{after_seal, is_spent, sealed_part};
ghost use Rattle.endpoint_model.specs.Sending.{piece_body, session_packet};
ghost use Rattle.session_table.specs.Table.{IsPacked, IsPackedBy, after_packed, in_row, in_session};
ghost use Rattle.session_table.specs.Table.{next_packet, packed_in, packet_counted, packet_sealed};
ghost use Rattle.session_table.specs.Table.{sealed_by, sealed_of};

use crate::slot::slot_near;
use crate::table::SessionTable;
use crypto_profile::{CIPHERED_AT, Context};
use endpoint_model::Row;
use packet_scramble::{SEALED_AT, scramble};
use rtmfp_base::Message;
use rtmfp_chunks::{ChunkView, write_chunk};
use rtmfp_forms::Outgoing;
use rtmfp_fragments::Piece;
use rtmfp_packet::begin_packet;
use session_core::Session;

/// A datagram of a session.
#[derive(Drop)]
pub struct Sealed {
    /// The datagram.
    pub datagram: Message,
    /// The context in which it was sealed.
    pub context: Context,
}

/// What became of a packet of a session.
#[derive(Drop)]
pub enum Packed {
    /// There is no such session, or all its counts are used.
    Nothing,
    /// It was sealed whole.
    Whole(Sealed),
    /// It is too long to go out whole, and nothing was sealed: the packet, and the buffer that was
    /// lent.
    Long(Outgoing, Vec<u8>),
}

impl SessionTable {
    /// Seals a packet of one chunk in the session with this session ID, in a buffer that is lent
    /// for it: its head has the timestamp of this moment. Where there is no such session, all its
    /// counts are used, or the packet has more bytes than the limit, nothing is sealed.
    pub fn seal(
        &mut self,
        near: u32,
        moment: u64,
        limit: u16,
        blank: Vec<u8>,
        chunk: &ChunkView<'_>,
    ) -> Packed
        requires blank { length blank.items ≡ 1200 }
        requires writable { IsWritable (chunk_of chunk.now) }
        requires short { length (chunk_bytes (chunk_of chunk.now)) ≤ 1159 }
        ensures answer { IsPackedBy limit moment (λ row. chunk_bytes (chunk_of chunk.now))
            (get self.old.rows near) result }
        ensures rows { self.new.rows
            ≡ in_row (packed_in limit moment (λ row. chunk_bytes (chunk_of chunk.now)))
            self.old.rows near }
    {
        match slot_near(&self.kept, near, self.likely) {
            Some(slot) => {
                let session = &mut self.kept.rows[slot].session;
                let packed = pack_chunk(session, moment, limit, blank, chunk);
                self.kept.settle(slot);
                packed
            }
            None => Packed::Nothing,
        }
    }

    /// Seals a packet of one piece in the session with this session ID, as a fragment chunk of the
    /// packet that has this ID, in a buffer that is lent for it. Where there is no such session, or
    /// all its counts are used, nothing is sealed.
    pub fn seal_piece(
        &mut self,
        near: u32,
        moment: u64,
        blank: Vec<u8>,
        id: u64,
        piece: &Piece<'_>,
    ) -> Option<Sealed>
        requires blank { length blank.items ≡ 1200 }
        requires short { length piece.now.bytes.now ≤ 1132 }
        ensures answer { result ≡ sealed_by moment (piece_body id (piece_parts piece.now))
            (get self.old.rows near) }
        ensures limit { IfSome result (λ x. length x.datagram ≤ 1200) }
        ensures rows { self.new.rows ≡ in_session after_seal self.old.rows near }
    {
        match slot_near(&self.kept, near, self.likely) {
            Some(slot) => {
                let session = &mut self.kept.rows[slot].session;
                let sealed = seal_piece_in(session, moment, blank, id, piece);
                self.kept.settle(slot);
                sealed
            }
            None => None,
        }
    }

    /// The next ID of a packet that goes out in so many pieces, in the session with this session
    /// ID: none where no ID is left, or not a count for each piece.
    pub fn take_id(&mut self, near: u32, pieces: u64) -> Option<u64>
        ensures answer { result ≡ next_packet pieces (get self.old.rows near) }
        ensures rows { self.new.rows ≡ in_row (packet_counted pieces) self.old.rows near }
    {
        match slot_near(&self.kept, near, self.likely) {
            Some(slot) => {
                let id = take_id_of(&mut self.kept.rows[slot], pieces);
                self.kept.settle(slot);
                id
            }
            None => None,
        }
    }
}

/// The next ID of a packet that goes out in so many pieces, where it is left and their counts are.
fn take_id_of(row: &mut Row, pieces: u64) -> Option<u64>
    ensures answer { result ≡ next_packet pieces (Some row.old) }
    ensures row { row.new ≡ packet_counted pieces row.old }
{
    if row.packets == u64::MAX || !row.session.has_counts(pieces) {
        return None;
    }
    row.packets += 1;
    Some(row.packets)
}

/// Seals a packet of one chunk in a session. Whatever the head, the chunk fits.
fn pack_chunk(
    session: &mut Session,
    moment: u64,
    limit: u16,
    blank: Vec<u8>,
    chunk: &ChunkView<'_>,
) -> Packed
    requires blank { length blank.items ≡ 1200 }
    requires writable { IsWritable (chunk_of chunk.now) }
    requires short { length (chunk_bytes (chunk_of chunk.now)) ≤ 1159 }
    ensures answer { IsPacked limit
        (session_packet session.old moment (chunk_bytes (chunk_of chunk.now))) session.old result }
    ensures session { session.new ≡ after_packed limit
        (session_packet session.old moment (chunk_bytes (chunk_of chunk.now))) session.old }
{
    let mut packet = begin_packet(&session.head(moment));
    let _ = write_chunk(chunk, &mut packet);
    pack(session, limit, blank, packet)
}

/// Seals a packet of one piece in a session.
fn seal_piece_in(
    session: &mut Session,
    moment: u64,
    blank: Vec<u8>,
    id: u64,
    piece: &Piece<'_>,
) -> Option<Sealed>
    requires blank { length blank.items ≡ 1200 }
    requires short { length piece.now.bytes.now ≤ 1132 }
    ensures answer { result ≡ sealed_of moment (piece_body id (piece_parts piece.now))
        session.old }
    ensures limit { IfSome result (λ x. length x.datagram ≤ 1200) }
    ensures session { session.new ≡ after_seal session.old }
{
    let mut packet = begin_packet(&session.head(moment));
    let chunk = fragment(piece.more, id, piece.number, piece.bytes);
    let _ = write_chunk(&chunk, &mut packet);
    seal_packet(session, blank, &packet)
}

/// A fragment chunk. Whatever its ID and its number, it fits behind each head.
fn fragment<'a>(more: bool, id: u64, number: u64, bytes: &'a [u8]) -> ChunkView<'a>
    requires { length bytes.now ≤ 1132 }
    ensures chunk { chunk_of result ≡ Fragment more id number bytes.now }
    ensures short { length (chunk_bytes (chunk_of result)) ≤ 1159 }
{
    ChunkView::Fragment {
        more,
        id,
        number,
        bytes,
    }
}

/// Seals a packet in a session, where it has no more bytes than the limit.
pub(crate) fn pack(session: &mut Session, limit: u16, blank: Vec<u8>, packet: Outgoing) -> Packed
    requires blank { length blank.items ≡ 1200 }
    ensures answer { IsPacked limit packet session.old result }
    ensures session { session.new ≡ after_packed limit packet session.old }
{
    if packet.bytes().len() > limit as usize {
        return Packed::Long(packet, blank);
    }
    match seal_packet(session, blank, &packet) {
        Some(sealed) => Packed::Whole(sealed),
        None => Packed::Nothing,
    }
}

/// Seals a packet in a session. Where all its counts are used, nothing is sealed.
pub(crate) fn seal_packet(
    session: &mut Session,
    blank: Vec<u8>,
    packet: &Outgoing,
) -> Option<Sealed>
    requires blank { length blank.items ≡ 1200 }
    ensures answer { result ≡ packet_sealed packet.now session.old }
    ensures limit { IfSome result (λ x. length x.datagram ≤ 1200) }
    ensures session { session.new ≡ after_seal session.old }
{
    if session.is_spent() {
        return None;
    }
    let context = session.context(true);
    let datagram = sealed_in(blank, session, packet);
    Some(Sealed { datagram, context })
}

/// The datagram of a packet in a session, for which memory was found and a count is left.
fn sealed_in(mut blank: Vec<u8>, session: &mut Session, packet: &Outgoing) -> Message
    requires blank { length blank.items ≡ 1200 }
    requires unspent { is_spent session.old ≡ false }
    ensures datagram { result ≡ datagram session.old.joined.far
        (sealed_part session.old packet.now) }
    ensures short { length result ≤ 1200 }
    ensures session { session.new ≡ after_seal session.old }
{
    blank.truncate(SEALED_AT + CIPHERED_AT + packet.bytes().len());
    fill(&mut blank, session, packet);
    blank.shrink_to_fit();
    Message::of(blank)
}

/// Fills a buffer, which is as long as the datagram, with that of a session's next packet.
fn fill(buffer: &mut [u8], session: &mut Session, packet: &Outgoing)
    requires room { length buffer.old ≡ 36 + length packet.now }
    requires unspent { is_spent session.old ≡ false }
    ensures datagram { buffer.new ≡ datagram session.old.joined.far
        (sealed_part session.old packet.now) }
    ensures session { session.new ≡ after_seal session.old }
{
    let sid = session.joined().far;
    let (head, part) = buffer.split_at_mut(SEALED_AT);
    session.seal_part(packet, part);
    let scrambled = scramble(sid, part);
    head.copy_from_slice(&scrambled.to_be_bytes());
}
