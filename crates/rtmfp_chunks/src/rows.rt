//! The payload of each type of chunk. An `Err` has the number of bytes from the field that can't be
//! read to the end.
#![tactic(auto, unfolding(crate::specs::FieldReading::chunk_at, crate::specs::Chunk::row_of, crate::specs::FieldReading::row_at, crate::specs::FieldReading::field_then))]

ghost use Rattle.std.specs.Prelude.{◌≡◌, Some};
ghost use Rattle.std.specs.Option.{option_map};
ghost use Rattle.rtmfp_chunks.specs.FieldReading.{chunk_at, described};

use crate::fields::{address, addresses, counted, more_flag, number, session_id};
use crate::kinds::*;
use crate::view::ChunkView;

/// Reads a payload of this type; `None` where no chunk has it.
pub(crate) fn read_payload(kind: u8, payload: &[u8]) -> Option<Result<ChunkView<'_>, usize>>
    ensures { chunk_at kind payload.now ≡ option_map described result }
{
    match kind {
        IHELLO => Some(read_ihello(payload)),
        FIHELLO => Some(read_fihello(payload)),
        RHELLO => Some(read_rhello(payload)),
        REDIRECT => Some(read_redirect(payload)),
        COOKIE_CHANGE => Some(read_cookie_change(payload)),
        IIKEYING => Some(read_iikeying(payload)),
        RIKEYING => Some(read_rikeying(payload)),
        PING => Some(Ok(ChunkView::Ping { bytes: payload })),
        PING_REPLY => Some(Ok(ChunkView::PingReply { bytes: payload })),
        CLOSE => Some(Ok(ChunkView::Close)),
        CLOSE_ACK => Some(Ok(ChunkView::CloseAck)),
        FRAGMENT => Some(read_fragment(payload)),
        _ => None,
    }
}

fn read_ihello(payload: &[u8]) -> Result<ChunkView<'_>, usize>
    ensures { chunk_at IHELLO payload.now ≡ Some (described result) }
{
    let (epd, tag) = counted(payload)?;
    Ok(ChunkView::IHello { epd, tag })
}

fn read_fihello(payload: &[u8]) -> Result<ChunkView<'_>, usize>
    ensures { chunk_at FIHELLO payload.now ≡ Some (described result) }
{
    let (epd, rest) = counted(payload)?;
    match address(rest) {
        Ok((reply, tag)) => Ok(ChunkView::FIHello { epd, reply, tag }),
        Err(left) => Err(left),
    }
}

fn read_rhello(payload: &[u8]) -> Result<ChunkView<'_>, usize>
    ensures { chunk_at RHELLO payload.now ≡ Some (described result) }
{
    let (tag, rest) = counted(payload)?;
    let (cookie, cert) = counted(rest)?;
    Ok(ChunkView::RHello { tag, cookie, cert })
}

fn read_redirect(payload: &[u8]) -> Result<ChunkView<'_>, usize>
    ensures { chunk_at REDIRECT payload.now ≡ Some (described result) }
{
    let (tag, rest) = counted(payload)?;
    let list = addresses(rest)?;
    Ok(ChunkView::Redirect { tag, list })
}

fn read_cookie_change(payload: &[u8]) -> Result<ChunkView<'_>, usize>
    ensures { chunk_at COOKIE_CHANGE payload.now ≡ Some (described result) }
{
    let (old, new) = counted(payload)?;
    Ok(ChunkView::CookieChange { old, new })
}

fn read_iikeying(payload: &[u8]) -> Result<ChunkView<'_>, usize>
    ensures { chunk_at IIKEYING payload.now ≡ Some (described result) }
{
    let (near, rest) = session_id(payload)?;
    let (cookie, rest) = counted(rest)?;
    let (cert, rest) = counted(rest)?;
    let (part, sign) = counted(rest)?;
    Ok(ChunkView::IIKeying {
        near,
        cookie,
        cert,
        part,
        sign,
    })
}

fn read_rikeying(payload: &[u8]) -> Result<ChunkView<'_>, usize>
    ensures { chunk_at RIKEYING payload.now ≡ Some (described result) }
{
    let (near, rest) = session_id(payload)?;
    let (part, sign) = counted(rest)?;
    Ok(ChunkView::RIKeying { near, part, sign })
}

fn read_fragment(payload: &[u8]) -> Result<ChunkView<'_>, usize>
    ensures { chunk_at FRAGMENT payload.now ≡ Some (described result) }
{
    let (more, rest) = more_flag(payload)?;
    let (id, rest) = number(rest)?;
    let (number, bytes) = number(rest)?;
    Ok(ChunkView::Fragment {
        more,
        id,
        number,
        bytes,
    })
}
