//! Chunks of flows written, each in its shortest spelling.
ghost use Rattle.std.specs.Prelude.{◌≡◌, ◌+◌, ◌-◌, ◌^◌, ◌<◌, ◌≤◌, ◌↔◌, ◌++◌, ◌∷◌, min, length, Option, OnOk, OnErr, IsErr};
ghost use Rattle.std.specs.Int.{to_be_bytes, w16};
ghost use Rattle.rtmfp_vlu.specs.Vlu.{vlu};
ghost use Rattle.rtmfp_forms.specs.Outgoing.{packet_limit};
ghost use Rattle.rtmfp_data_chunks.specs.declared.user_data.Numbers.{Numbers};
ghost use Rattle.rtmfp_data_chunks.specs.Chunk.{user_parts, data_chunk};
ghost use Rattle.rtmfp_data_chunks.specs.Fields.{OptionsStand, part_number};
ghost use Rattle.rtmfp_data_chunks.specs.Spelling.{PayloadSpells, DataSpells, kind_of};
ghost use Rattle.rtmfp_data_chunks.specs.Writing.{IsDataChunk, CanFollow, flags_of, list_bytes, body_bytes, payload_bytes, data_bytes};

use crate::kinds;
use crate::user_data::{Part, UserData};
use crate::view::DataView;
use rtmfp_forms::{NoRoom, Options, Outgoing, append_options, options_len};
use rtmfp_vlu::vlu_len;

/// Puts the chunk at the end, its type and its length included, all or nothing. Numbers and options
/// get their shortest spelling; the pairs of an ack stay as they are.
pub fn write_data(view: &DataView<'_>, out: &mut Outgoing) -> Result<(), NoRoom>
    // A chunk that can be read.
    requires { IsDataChunk (data_chunk view.now) }
    ensures ok { OnOk result (out.new ≡ out.old ++ data_bytes (data_chunk view.now)) }
    ensures no_room { IsErr result ↔ (packet_limit
        < length out.old + length (data_bytes (data_chunk view.now))) }
    ensures err { OnErr result (out.new ≡ out.old) }

    // What is written reads as the same chunk, a next chunk behind the one before it.
    ensures spells { (last : Option Numbers) → CanFollow (data_chunk view.now) last →
        DataSpells (data_chunk view.now) last (kind_of (data_chunk view.now))
        (payload_bytes (data_chunk view.now)) }
{
    let len = payload_len(view);
    if len.saturating_add(3) > out.room() {
        return Err(NoRoom);
    }
    append_head(kind(view), len as u16, out);
    append_payload(view, out);
    Ok(())
}

/// The type of the chunk.
fn kind(view: &DataView<'_>) -> u8
    ensures { result ≡ kind_of (data_chunk view.now) }
{
    match view {
        DataView::Data(_) => kinds::DATA,
        DataView::Next(_) => kinds::NEXT,
        DataView::AckBitmap { .. } => kinds::ACK_BITMAP,
        DataView::AckRanges { .. } => kinds::ACK_RANGES,
        DataView::Probe { .. } => kinds::PROBE,
        DataView::Exception { .. } => kinds::EXCEPTION,
    }
}

/// Puts a chunk's type and the length of its payload at the end, for which there is room.
fn append_head(kind: u8, len: u16, out: &mut Outgoing)
    requires { length out.old + 3 ≤ packet_limit }
    ensures { out.new ≡ out.old ++ kind ∷ to_be_bytes w16 len }
{
    let [high, low] = len.to_be_bytes();
    out.append(&[kind, high, low]);
}

/// The length of the payload, where it isn't above what a length can be.
fn payload_len(view: &DataView<'_>) -> usize
    requires { IsDataChunk (data_chunk view.now) }
    ensures length { result ≡ min (length (payload_bytes (data_chunk view.now))) (2 ^ 64 - 1) }
    ensures spells { (last : Option Numbers) → CanFollow (data_chunk view.now) last →
        PayloadSpells (data_chunk view.now) last (payload_bytes (data_chunk view.now)) }
{
    match view {
        DataView::Data(user) => {
            let numbers = three_len(user.flow, user.seq, user.seq - user.forward);
            body_len(user).saturating_add(1 + numbers)
        }
        DataView::Next(user) => body_len(user).saturating_add(1),
        DataView::AckBitmap {
            flow,
            blocks,
            upto,
            bits,
        } => three_len(*flow, *blocks, *upto) + bits.len(),
        DataView::AckRanges {
            flow,
            blocks,
            upto,
            pairs,
        } => three_len(*flow, *blocks, *upto) + pairs.len(),
        DataView::Probe { flow } => number_len(*flow),
        DataView::Exception { flow, code } => number_len(*flow) + number_len(*code),
    }
}

/// The length of a number.
fn number_len(value: u64) -> usize
    ensures length { result ≡ length (vlu value) }
    ensures within { result ≤ 10 }
    ensures fits { value < 2 ^ 64 }
{
    vlu_len(value)
}

/// The length of three numbers.
fn three_len(first: u64, second: u64, third: u64) -> usize
    ensures length { result ≡ length (vlu first) + length (vlu second) + length (vlu third) }
    ensures within { result ≤ 30 }
    ensures first { first < 2 ^ 64 }
    ensures second { second < 2 ^ 64 }
    ensures third { third < 2 ^ 64 }
{
    number_len(first) + number_len(second) + number_len(third)
}

/// The length of the options and the bytes, where it isn't above what a length can be.
fn body_len(user: &UserData<'_>) -> usize
    ensures length { result ≡ min (length (body_bytes (user_parts user.now))) (2 ^ 64 - 1) }
    ensures stand { OptionsStand user.now.options (list_bytes user.now.options) }
{
    match &user.options {
        Some(options) => options_len(options).saturating_add(user.bytes.len()),
        None => user.bytes.len(),
    }
}

/// Puts the payload at the end, for which there is room.
fn append_payload(view: &DataView<'_>, out: &mut Outgoing)
    requires chunk { IsDataChunk (data_chunk view.now) }
    requires room { length out.old + length (payload_bytes (data_chunk view.now)) ≤ packet_limit }
    ensures { out.new ≡ out.old ++ payload_bytes (data_chunk view.now) }
{
    match view {
        DataView::Data(user) => {
            out.append(&[flags(user)]);
            append_three(user.flow, user.seq, user.seq - user.forward, out);
            append_body(user, out);
        }
        DataView::Next(user) => {
            out.append(&[flags(user)]);
            append_body(user, out);
        }
        DataView::AckBitmap {
            flow,
            blocks,
            upto,
            bits,
        } => {
            append_three(*flow, *blocks, *upto, out);
            out.append(bits);
        }
        DataView::AckRanges {
            flow,
            blocks,
            upto,
            pairs,
        } => {
            append_three(*flow, *blocks, *upto, out);
            out.append(pairs);
        }
        DataView::Probe { flow } => out.append_vlu(*flow),
        DataView::Exception { flow, code } => {
            out.append_vlu(*flow);
            out.append_vlu(*code);
        }
    }
}

/// Puts three numbers at the end, for which there is room.
fn append_three(first: u64, second: u64, third: u64, out: &mut Outgoing)
    requires { length out.old + (length (vlu first) + length (vlu second) + length (vlu third))
        ≤ packet_limit }
    ensures { out.new ≡ ((out.old ++ vlu first) ++ vlu second) ++ vlu third }
{
    out.append_vlu(first);
    out.append_vlu(second);
    out.append_vlu(third);
}

/// Puts the options and the bytes at the end, for which there is room.
fn append_body(user: &UserData<'_>, out: &mut Outgoing)
    requires { length out.old + length (body_bytes (user_parts user.now)) ≤ packet_limit }
    ensures { out.new ≡ out.old ++ body_bytes (user_parts user.now) }
{
    append_list(&user.options, out);
    out.append(user.bytes);
}

fn append_list(options: &Option<Options<'_>>, out: &mut Outgoing)
    requires { length out.old + length (list_bytes options.now) ≤ packet_limit }
    ensures { out.new ≡ out.old ++ list_bytes options.now }
{
    if let Some(options) = options {
        append_options(options, out);
    }
}

/// The flags of user data.
fn flags(user: &UserData<'_>) -> u8
    ensures { result ≡ flags_of (user_parts user.now) }
{
    let options = user.options.is_some();
    128 * u8::from(options)
        + 16 * part_number(user.part)
        + 2 * u8::from(user.abandon)
        + u8::from(user.last)
}

/// How the flags tell the part.
fn part_number(part: Part) -> u8
    ensures number { result ≡ part_number part }
    ensures within { result ≤ 3 }
{
    match part {
        Part::Whole => 0,
        Part::Begin => 1,
        Part::End => 2,
        Part::Middle => 3,
    }
}
