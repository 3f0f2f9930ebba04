//! Datagrams of a session that go out: a packet whole, or in pieces where it is too long.

ghost use Rattle.std.specs.Prelude.{◌≡◌, ◌≤◌, ◌<◌, ◌+◌, ◌-◌, All, IfSome, length};
ghost use Rattle.std.specs.FinMap.{get};
ghost use Rattle.rtmfp_chunks.specs.Chunk.{chunk_of};
ghost use Rattle.rtmfp_chunks.specs.Writing.{IsWritable, chunk_bytes};
ghost use Rattle.rtmfp_fragments.specs.Pieces.{piece_parts, pieces_of};
ghost use Rattle.endpoint_model.specs.declared.entry.Entry.TheVariants.{Out};
ghost use Rattle.endpoint_model.specs.State.{Done};
ghost use Rattle.endpoint_model.specs.Sending.{limit_of, sent_in_session};
ghost use Rattle.endpoint_model.specs.InSessions.{sent_home};
ghost use Rattle.session_table.specs.FlowTimes.{DataFalls};
ghost use Rattle.end_state.specs.Steps.{MayGo, data_sent_by, datagrams_for, long_sent};
ghost use Rattle.end_state.specs.Steps.{packed_sent, piece_sent};

use crate::end_state::EndState;
use crate::memory::Blanks;
use crate::outbox::Outbox;
use endpoint_model::Entry;
use rtmfp_chunks::ChunkView;
use rtmfp_forms::{Address, Outgoing};
use rtmfp_fragments::{Piece, split};
use session_table::{Packed, Sealed};

impl EndState {
    /// Sends a packet with one chunk in the session with this session ID, to an address. Nothing
    /// goes out where there is no such session, or an ID or one of the counts is lacking.
    pub fn send_in_session(
        &mut self,
        blanks: Blanks,
        near: u32,
        to: &Address,
        chunk: &ChunkView<'_>,
        out: &mut Outbox,
    )
        requires enough { datagrams_for (limit_of self.old)
            (length (chunk_bytes (chunk_of chunk.now))) ≤ blanks }
        requires room { blanks ≤ out.old.free }
        requires writable { IsWritable (chunk_of chunk.now) }
        requires short { length (chunk_bytes (chunk_of chunk.now)) ≤ 1159 }
        ensures { Done (sent_in_session self.old near to.now (chunk_bytes (chunk_of chunk.now)))
            self.new out.old out.new }
    {
        let Blanks { first, more } = blanks;
        let limit = self.limit();
        let packed = self.sessions.seal(near, self.moment, limit, first, chunk);
        self.send_packed(packed, more, near, to, out);
    }

    /// The same to where the datagrams of the session go.
    pub fn send_home(&mut self, blanks: Blanks, near: u32, chunk: &ChunkView<'_>, out: &mut Outbox)
        requires enough { datagrams_for (limit_of self.old)
            (length (chunk_bytes (chunk_of chunk.now))) ≤ blanks }
        requires room { blanks ≤ out.old.free }
        requires writable { IsWritable (chunk_of chunk.now) }
        requires short { length (chunk_bytes (chunk_of chunk.now)) ≤ 1159 }
        ensures { Done (sent_home self.old near (chunk_bytes (chunk_of chunk.now))) self.new
            out.old out.new }
    {
        let Some(row) = self.sessions.row(near) else {
            return;
        };
        let to = *row.session.address();
        self.send_in_session(blanks, near, &to, chunk, out);
    }

    /// Sends a packet with flow data in the session with this session ID, as many chunks as go. The
    /// flows keep that they went. Nothing goes out where there is no such session, or an ID or one
    /// of the counts is lacking.
    pub fn send_data(&mut self, blanks: Blanks, near: u32, out: &mut Outbox)
        requires enough { datagrams_for (limit_of self.old) 1159 ≤ blanks }
        requires room { blanks ≤ out.old.free }
        ensures done { Done (data_sent_by self.old near (get self.old.sessions near)) self.new
            out.old out.new }
        // Where flow data is due, less is left to send then, and the same messages wait.
        ensures falls { IfSome (get self.old.sessions near)
            (λ row. DataFalls self.old.moment row) }
    {
        let Some(row) = self.sessions.row(near) else {
            return;
        };
        let to = *row.session.address();
        let Blanks { first, more } = blanks;
        let limit = self.limit();
        let packed = self.sessions.seal_data(near, self.moment, limit, first);
        self.send_packed(packed, more, near, &to, out);
    }

    /// Sends what became of a packet, with memory for its further pieces.
    pub(crate) fn send_packed(
        &mut self,
        packed: Packed,
        more: Vec<Vec<u8>>,
        near: u32,
        to: &Address,
        out: &mut Outbox,
    )
        requires blanks { All (λ bytes. length bytes.items ≡ 1200) more.items }
        requires may_go { MayGo (limit_of self.old) (1 + length more.items) packed }
        requires room { 1 + length more.items ≤ out.old.free }
        ensures { Done (packed_sent self.old near to.now packed) self.new out.old out.new }
    {
        match packed {
            Packed::Nothing => {}
            Packed::Whole(sealed) => out.add(entry_of(to, sealed)),
            Packed::Long(packet, first) => self.send_long(&packet, first, more, near, to, out),
        }
    }

    /// Sends a packet in its pieces, each in a packet of its own. Nothing goes out where there is
    /// no such session, or an ID or one of the counts is lacking.
    fn send_long(
        &mut self,
        packet: &Outgoing,
        first: Vec<u8>,
        mut more: Vec<Vec<u8>>,
        near: u32,
        to: &Address,
        out: &mut Outbox,
    )
        requires first { length first.items ≡ 1200 }
        requires blanks { All (λ bytes. length bytes.items ≡ 1200) more.items }
        requires long { limit_of self.old < length packet.now }
        requires short { length packet.now ≤ 1164 }
        requires enough { length (pieces_of packet.now (limit_of self.old - 32))
            ≤ 1 + length more.items }
        requires room { 1 + length more.items ≤ out.old.free }
        ensures { Done (long_sent self.old near to.now packet.now (get self.old.sessions near))
            self.new out.old out.new }
    {
        let size = (self.limit() - 32) as usize;
        let bytes = packet.bytes();
        let Ok(pieces) = split(bytes, size) else {
            return;
        };
        let count = piece_count(bytes, size);
        let Some(id) = self.sessions.take_id(near, count) else {
            return;
        };
        let mut next = Some(first);
        for piece in pieces {
            let Some(blank) = next else {
                return;
            };
            self.send_piece(blank, near, to, id, &piece, out);
            next = more.pop();
        }
    }

    /// Sends a piece of the packet that has this ID.
    fn send_piece(
        &mut self,
        blank: Vec<u8>,
        near: u32,
        to: &Address,
        id: u64,
        piece: &Piece<'_>,
        out: &mut Outbox,
    )
        requires blank { length blank.items ≡ 1200 }
        requires short { length piece.now.bytes.now ≤ 1132 }
        requires room { 0 < out.old.free }
        ensures { Done (piece_sent self.old near to.now id (piece_parts piece.now)) self.new
            out.old out.new }
    {
        let Some(sealed) = self
            .sessions
            .seal_piece(near, self.moment, blank, id, piece)
        else {
            return;
        };
        out.add(entry_of(to, sealed));
    }
}

/// The entry of a datagram of a session that goes out.
fn entry_of(to: &Address, sealed: Sealed) -> Entry
    ensures { result ≡ Out to.now sealed.datagram sealed.context }
{
    Entry::Out {
        to: *to,
        datagram: sealed.datagram,
        context: sealed.context,
    }
}

/// How many pieces of this size a packet has.
fn piece_count(packet: &[u8], size: usize) -> u64
    requires size { 0 < size }
    requires some { 0 < length packet.now }
    ensures { result ≡ length (pieces_of packet.now size) }
{
    ((packet.len() - 1) / size + 1) as u64
}
