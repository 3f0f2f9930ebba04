//! The payload of each chunk of flows.
ghost use Rattle.std.specs.Prelude.{◌≡◌, ◌<◌, ◌≤◌, length, IfSome};
ghost use Rattle.rtmfp_data_chunks.specs.Chunk.{user_parts, data_chunk};
ghost use Rattle.rtmfp_data_chunks.specs.Reader.{Shows, is_bad_offset, data_then, next_then, bitmap_then, ack_ranges_then, probe_then, exception_then, data_reading, passing_byte, pairs_then};

use crate::fields::{abandons, number, three_numbers, two_numbers, user_data};
use crate::kinds;
use crate::user_data::{Numbers, UserData};
use crate::view::{DataFault, DataView};

/// Whether the offset of the forward number passes the number, or is 0 without abandon.
fn is_bad_offset(flags: u8, seq: u64, behind: u64) -> bool
    ensures { result ≡ is_bad_offset flags seq behind }
{
    if behind > seq {
        return true;
    }
    behind == 0 && !abandons(flags)
}

/// Reads user data.
#[tactic(auto, unfolding(crate::specs::Reader::data_then))]
fn read_data(payload: &[u8]) -> Result<UserData<'_>, DataFault>
    ensures { Shows user_parts result (data_then payload.now) }
{
    let [flags, rest @ ..] = payload else {
        return Err(DataFault::Malformed(0));
    };
    let size = payload.len();
    let ([flow, seq], rest) = two_numbers(size, rest)?;
    let at = size - rest.len();
    let (behind, rest) = number(size, rest)?;
    if is_bad_offset(*flags, seq, behind) {
        return Err(DataFault::BadOffset(at));
    }
    let numbers = Numbers {
        flow,
        seq,
        forward: seq - behind,
    };
    user_data(*flags, numbers, size, rest)
}

/// Reads user data whose numbers follow from those of the chunk before it.
#[tactic(auto, unfolding(crate::specs::Reader::next_then))]
fn read_next(before: Option<Numbers>, payload: &[u8]) -> Result<UserData<'_>, DataFault>
    ensures { Shows user_parts result (next_then before payload.now) }
{
    let Some(before) = before else {
        return Err(DataFault::Malformed(0));
    };
    if before.seq == u64::MAX {
        return Err(DataFault::Malformed(0));
    }
    let [flags, rest @ ..] = payload else {
        return Err(DataFault::Malformed(0));
    };
    let numbers = Numbers {
        seq: before.seq + 1,
        ..before
    };
    user_data(*flags, numbers, payload.len(), rest)
}

/// The first byte that has a set bit from the one of this number on.
fn passing_byte(fitting: u64, bits: &[u8]) -> Option<usize>
    ensures first { result ≡ passing_byte fitting bits.now }
    ensures within { IfSome result (λ byte. byte < length bits.now) }
{
    // Nearly always all of them fit.
    if bits.len() as u64 <= fitting / 8 {
        return None;
    }
    let mut room = fitting;
    for (i, byte) in bits.iter().enumerate() {
        if u32::from(*byte) >> room.min(8) != 0 {
            return Some(i);
        }
        room = room.saturating_sub(8);
    }
    None
}

/// Reads an ack by bits.
#[tactic(auto, unfolding(crate::specs::Reader::bitmap_then))]
fn read_bitmap(payload: &[u8]) -> Result<DataView<'_>, DataFault>
    ensures { Shows data_chunk result (bitmap_then payload.now) }
{
    let ([flow, blocks, upto], bits) = three_numbers(payload.len(), payload)?;
    let fitting = (u64::MAX - upto).saturating_sub(1);
    match passing_byte(fitting, bits) {
        None => Ok(DataView::AckBitmap {
            flow,
            blocks,
            upto,
            bits,
        }),
        Some(byte) => Err(DataFault::Malformed(payload.len() - bits.len() + byte)),
    }
}

/// Walks over pairs upward from a number, and gives the last number that they tell of.
fn last_told(size: usize, above: u64, pairs: &[u8]) -> Result<u64, DataFault>
    requires { length pairs.now ≤ size }
    ensures { Shows (λ end. end) result (pairs_then size above pairs.now) }
{
    let mut end = above;
    let mut rest = pairs;
    while !rest.is_empty() {
        let ([holes, received], after) = two_numbers(size, rest)?;
        let next = u128::from(end) + u128::from(holes) + 2 + u128::from(received);
        if next > u128::from(u64::MAX) {
            return Err(DataFault::Malformed(size - rest.len()));
        }
        end = next as u64;
        rest = after;
    }
    Ok(end)
}

/// Reads an ack by spans.
#[tactic(auto, unfolding(crate::specs::Reader::ack_ranges_then))]
fn read_ack_ranges(payload: &[u8]) -> Result<DataView<'_>, DataFault>
    ensures { Shows data_chunk result (ack_ranges_then payload.now) }
{
    let ([flow, blocks, upto], pairs) = three_numbers(payload.len(), payload)?;
    last_told(payload.len(), upto, pairs)?;
    Ok(DataView::AckRanges {
        flow,
        blocks,
        upto,
        pairs,
    })
}

/// Reads a probe.
#[tactic(auto, unfolding(crate::specs::Reader::probe_then, crate::specs::Reader::numbers_then))]
fn read_probe(payload: &[u8]) -> Result<DataView<'_>, DataFault>
    ensures { Shows data_chunk result (probe_then payload.now) }
{
    let (flow, _) = number(payload.len(), payload)?;
    Ok(DataView::Probe { flow })
}

/// Reads an exception.
#[tactic(auto, unfolding(crate::specs::Reader::exception_then))]
fn read_exception(payload: &[u8]) -> Result<DataView<'_>, DataFault>
    ensures { Shows data_chunk result (exception_then payload.now) }
{
    let ([flow, code], _) = two_numbers(payload.len(), payload)?;
    Ok(DataView::Exception { flow, code })
}

/// Reads a chunk of this type behind the chunk before it.
#[tactic(auto, unfolding(crate::specs::Reader::data_reading))]
pub(crate) fn read_kind(
    before: Option<Numbers>,
    kind: u8,
    payload: &[u8],
) -> Result<DataView<'_>, DataFault>
    ensures { Shows data_chunk result (data_reading before kind payload.now) }
{
    match kind {
        kinds::DATA => Ok(DataView::Data(read_data(payload)?)),
        kinds::NEXT => Ok(DataView::Next(read_next(before, payload)?)),
        kinds::ACK_BITMAP => read_bitmap(payload),
        kinds::ACK_RANGES => read_ack_ranges(payload),
        kinds::PROBE => read_probe(payload),
        kinds::EXCEPTION => read_exception(payload),
        _ => Err(DataFault::Unknown(kind)),
    }
}
