//! Chunks written into a packet.
ghost use Rattle.std.specs.Prelude.{◌≡◌, ◌+◌, ◌^◌, ◌<◌, ◌≤◌, ◌↔◌, ◌++◌, ◌∷◌, ◌-◌, length, min, OnOk, OnErr, IsErr};
ghost use Rattle.std.specs.Int.{w16, to_be_bytes};
ghost use Rattle.rtmfp_forms.specs.Address.{IsAddress};
ghost use Rattle.rtmfp_forms.specs.Outgoing.{packet_limit};
ghost use Rattle.rtmfp_chunks.specs.Fields.{Counted, SessionId, More, OneAddress};
ghost use Rattle.rtmfp_chunks.specs.Chunk.{Spells, chunk_of, kind_of, parts_of};
ghost use Rattle.rtmfp_chunks.specs.Writing.{IsWritable, PartsFit, chunk_bytes, field_bytes, payload_bytes};

use crate::kinds::*;
use crate::view::ChunkView;
use rtmfp_forms::{Address, NoRoom, Outgoing};
use rtmfp_vlu::vlu_len;

/// The bytes of a chunk before its payload: the type and the length.
const HEAD_LEN: usize = 3;

/// Puts a chunk at the end of a packet, its type, the length of its payload and the payload (RFC
/// 7016 section 2.2.4), all or nothing. The list of a redirect has to be whole addresses, and is
/// copied as it stands.
pub fn write_chunk(view: &ChunkView<'_>, out: &mut Outgoing) -> Result<(), NoRoom>
    requires { IsWritable (chunk_of view.now) }
    ensures ok { OnOk result (out.new ≡ out.old ++ chunk_bytes (chunk_of view.now)) }
    ensures no_room { IsErr result ↔ (packet_limit
        < length out.old + length (chunk_bytes (chunk_of view.now))) }
    ensures err { OnErr result (out.new ≡ out.old) }

    // What is written reads as the same chunk.
    ensures spells { Spells (chunk_of view.now) (kind_of (chunk_of view.now))
        (payload_bytes (chunk_of view.now)) }
{
    let len = payload_len(view);
    if len.saturating_add(HEAD_LEN) > out.room() {
        return Err(NoRoom);
    }
    append_head(kind(view), len as u16, out);
    append_payload(view, out);
    Ok(())
}

/// The type of a chunk.
fn kind(view: &ChunkView<'_>) -> u8
    ensures { result ≡ kind_of (chunk_of view.now) }
{
    match view {
        ChunkView::IHello { .. } => IHELLO,
        ChunkView::FIHello { .. } => FIHELLO,
        ChunkView::RHello { .. } => RHELLO,
        ChunkView::Redirect { .. } => REDIRECT,
        ChunkView::CookieChange { .. } => COOKIE_CHANGE,
        ChunkView::IIKeying { .. } => IIKEYING,
        ChunkView::RIKeying { .. } => RIKEYING,
        ChunkView::Ping { .. } => PING,
        ChunkView::PingReply { .. } => PING_REPLY,
        ChunkView::Close => CLOSE,
        ChunkView::CloseAck => CLOSE_ACK,
        ChunkView::Fragment { .. } => FRAGMENT,
    }
}

/// The length of a payload, or the largest number where it is longer.
fn payload_len(view: &ChunkView<'_>) -> usize
    requires { IsWritable (chunk_of view.now) }
    ensures length { result ≡ min (length (payload_bytes (chunk_of view.now))) (2 ^ 64 - 1) }
    ensures fits { PartsFit (parts_of (chunk_of view.now)) }
{
    match view {
        ChunkView::IHello { epd, tag } => counted_len(epd).saturating_add(tag.len()),
        ChunkView::FIHello { epd, reply, tag } => counted_len(epd)
            .saturating_add(address_len(reply))
            .saturating_add(tag.len()),
        ChunkView::RHello { tag, cookie, cert } => counted_len(tag)
            .saturating_add(counted_len(cookie))
            .saturating_add(cert.len()),
        ChunkView::Redirect { tag, list } => counted_len(tag).saturating_add(list.len()),
        ChunkView::CookieChange { old, new } => counted_len(old).saturating_add(new.len()),
        ChunkView::IIKeying {
            near,
            cookie,
            cert,
            part,
            sign,
        } => id_len(*near)
            .saturating_add(counted_len(cookie))
            .saturating_add(counted_len(cert))
            .saturating_add(counted_len(part))
            .saturating_add(sign.len()),
        ChunkView::RIKeying { near, part, sign } => id_len(*near)
            .saturating_add(counted_len(part))
            .saturating_add(sign.len()),
        ChunkView::Ping { bytes } => bytes.len(),
        ChunkView::PingReply { bytes } => bytes.len(),
        ChunkView::Close => 0,
        ChunkView::CloseAck => 0,
        ChunkView::Fragment {
            more: _,
            id,
            number,
            bytes,
        } => bytes
            .len()
            .saturating_add(1 + vlu_len(*id) + vlu_len(*number)),
    }
}

/// The length of an address's spelling.
fn address_len(address: &Address) -> usize
    ensures length { result ≡ length (field_bytes (OneAddress address.now)) }
    ensures fits { IsAddress address.now }
{
    if address.v6 { 19 } else { 7 }
}

/// The length of a session ID.
fn id_len(_id: u32) -> usize
    ensures length { result ≡ length (field_bytes (SessionId _id)) }
    ensures fits { _id < 2 ^ 32 }
{
    4
}

/// The length of bytes with their length before them.
fn counted_len(bytes: &[u8]) -> usize
    ensures length { result ≡ length (field_bytes (Counted bytes.now)) }
    ensures fits { length bytes.now < 2 ^ 63 }
    ensures within { result ≤ length bytes.now + 10 }
{
    vlu_len(bytes.len() as u64) + bytes.len()
}

fn append_counted(bytes: &[u8], out: &mut Outgoing)
    requires { length out.old + length (field_bytes (Counted bytes.now)) ≤ packet_limit }
    ensures { out.new ≡ out.old ++ field_bytes (Counted bytes.now) }
{
    out.append_vlu(bytes.len() as u64);
    out.append(bytes);
}

fn append_id(id: u32, out: &mut Outgoing)
    requires { length out.old + 4 ≤ packet_limit }
    ensures { out.new ≡ out.old ++ field_bytes (SessionId id) }
{
    out.append(&id.to_be_bytes());
}

fn append_more(more: bool, out: &mut Outgoing)
    requires { length out.old + 1 ≤ packet_limit }
    ensures { out.new ≡ out.old ++ field_bytes (More more) }
{
    let flags = if more { 0x80 } else { 0 };
    out.append(&[flags]);
}

fn append_head(kind: u8, len: u16, out: &mut Outgoing)
    requires { length out.old + 3 ≤ packet_limit }
    ensures { out.new ≡ out.old ++ (kind ∷ to_be_bytes w16 len) }
{
    out.append(&[kind]);
    out.append(&len.to_be_bytes());
}

/// Puts the payload at the end, for which there is room.
fn append_payload(view: &ChunkView<'_>, out: &mut Outgoing)
    requires { length out.old + length (payload_bytes (chunk_of view.now)) ≤ packet_limit }
    ensures { out.new ≡ out.old ++ payload_bytes (chunk_of view.now) }
{
    match view {
        ChunkView::IHello { epd, tag } => {
            append_counted(epd, out);
            out.append(tag);
        }
        ChunkView::FIHello { epd, reply, tag } => {
            append_counted(epd, out);
            out.append_address(reply);
            out.append(tag);
        }
        ChunkView::RHello { tag, cookie, cert } => {
            append_counted(tag, out);
            append_counted(cookie, out);
            out.append(cert);
        }
        ChunkView::Redirect { tag, list } => {
            append_counted(tag, out);
            out.append(list);
        }
        ChunkView::CookieChange { old, new } => {
            append_counted(old, out);
            out.append(new);
        }
        ChunkView::IIKeying {
            near,
            cookie,
            cert,
            part,
            sign,
        } => {
            append_id(*near, out);
            append_counted(cookie, out);
            append_counted(cert, out);
            append_counted(part, out);
            out.append(sign);
        }
        ChunkView::RIKeying { near, part, sign } => {
            append_id(*near, out);
            append_counted(part, out);
            out.append(sign);
        }
        ChunkView::Ping { bytes } => out.append(bytes),
        ChunkView::PingReply { bytes } => out.append(bytes),
        ChunkView::Close => {}
        ChunkView::CloseAck => {}
        ChunkView::Fragment {
            more,
            id,
            number,
            bytes,
        } => {
            append_more(*more, out);
            out.append_vlu(*id);
            out.append_vlu(*number);
            out.append(bytes);
        }
    }
}
