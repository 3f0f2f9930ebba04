//! What `show` prints of a packet.
ghost use Rattle.std.specs.Prelude.{◌≡◌, ◌++◌, ◌≤◌, [], false, length, OnOk, IfOk, MatchBool};
ghost use Rattle.rtmfp_packet.specs.Head.{mode_number};
ghost use Rattle.rtmfp_data_chunks.specs.Spelling.{shown};
ghost use Rattle.rtmfp_text.specs.Words.{number_text};
ghost use Rattle.rtmfp_show.specs.ShowText.{FieldsText, FlowText, PacketText, WholeText, flow_text, head_text, malformed_text, padding_text, unknown_text};
ghost use Rattle.rtmfp_show.specs.ShowLine.{IsNoPacket, ShowsLine};
ghost use Rattle.rtmfp_show.specs.Adding.{Adds, AddsChunk};

use crate::digits::decode;
use crate::show_chunk::show_view;
use crate::show_data::show_data_view;
use rtmfp_chunks::{ChunkFault, read_chunk};
use rtmfp_data_chunks::{DataCursor, DataFault, DataView};
use rtmfp_packet::{Mode, Packet, PacketFault, PacketHead, RawChunk, read_packet};
use rtmfp_text::{Text, bit_digit, kind_name};
use std::alloc::AllocError;

/// The longest line, in bytes without its LF.
pub const LIMIT: usize = 4096;

/// The longest packet that a line can have.
const PACKET: usize = LIMIT / 2;

/// Makes the text of a line. It is `false`, with no text, where the line is outside the grammar.
pub fn show_line(line: &[u8], text: &mut Text) -> Result<bool, AllocError>
    requires { length line.now ≤ LIMIT }
    ensures shown { IfOk result (λ good. MatchBool good (ShowsLine line.now text.new)
        (IsNoPacket line.now)) }
    ensures none { IfOk result (λ good. good ≡ false → text.new ≡ []) }
{
    text.clear();
    let mut packet = [0; PACKET];
    let packet = &mut packet[..line.len() / 2];
    if !decode(line, packet) {
        return Ok(false);
    }
    show_packet(packet, text)?;
    Ok(true)
}

/// Adds the text of a packet.
fn show_packet(bytes: &[u8], text: &mut Text) -> Result<(), AllocError>
    ensures { OnOk result (Adds (PacketText bytes.now) text.old text.new) }
{
    match read_packet(bytes) {
        Ok(packet) => show_whole(&packet, text),
        Err(PacketFault::Empty) => text.push("bad empty\n"),
        Err(PacketFault::ModeZero) => text.push("bad mode-zero\n"),
        Err(PacketFault::ShortStamp) => text.push("bad short-stamp\n"),
    }
}

/// Adds the text of a packet that has a head.
fn show_whole(packet: &Packet<'_>, text: &mut Text) -> Result<(), AllocError>
    ensures { OnOk result (Adds (WholeText packet.now) text.old text.new) }
{
    show_head(packet.head(), text)?;
    let mut flows = DataCursor::new();
    for chunk in packet.chunks() {
        show_chunk(&chunk, &mut flows, text)?;
    }
    show_padding(packet.padding(), text)?;
    Ok(())
}

/// Adds the line of a padding of so many bytes.
fn show_padding(count: usize, text: &mut Text) -> Result<(), AllocError>
    ensures { OnOk result (text.new ≡ text.old ++ padding_text count) }
{
    text.push("padding ")?;
    text.push_number(count as u64)?;
    text.push("\n")?;
    Ok(())
}

/// Adds the line of a head.
fn show_head(head: &PacketHead, text: &mut Text) -> Result<(), AllocError>
    ensures { OnOk result (text.new ≡ text.old ++ head_text head.now) }
{
    text.push("packet mode=")?;
    text.push_number(u64::from(mode_number(head.mode)))?;
    text.push(" critical=")?;
    text.push(bit_digit(head.critical))?;
    text.push(" reverse=")?;
    text.push(bit_digit(head.reverse))?;
    text.push(" stamp=")?;
    show_stamp(head.stamp, text)?;
    text.push(" echo=")?;
    show_stamp(head.echo, text)?;
    text.push("\n")?;
    Ok(())
}

fn mode_number(mode: Mode) -> u8
    ensures { result ≡ mode_number mode }
{
    match mode {
        Mode::Initiator => 1,
        Mode::Responder => 2,
        Mode::Startup => 3,
    }
}

fn show_stamp(stamp: Option<u16>, text: &mut Text) -> Result<(), AllocError>
    ensures { OnOk result (text.new ≡ text.old ++ number_text stamp) }
{
    match stamp {
        Some(stamp) => text.push_number(u64::from(stamp)),
        None => text.push("-"),
    }
}

/// Adds the line of a chunk, as it reads.
fn show_chunk(
    chunk: &RawChunk<'_>,
    flows: &mut DataCursor,
    text: &mut Text,
) -> Result<(), AllocError>
    ensures { OnOk result (AddsChunk flows.old chunk.now text.old text.new flows.new) }
{
    text.push_number(chunk.at as u64)?;
    show_fields(chunk.kind, chunk.payload, flows, text)?;
    text.push("\n")?;
    Ok(())
}

/// Adds what stands behind the offset of a chunk. One that can't be of a flow ends a run of user
/// data.
fn show_fields(
    kind: u8,
    payload: &[u8],
    flows: &mut DataCursor,
    text: &mut Text,
) -> Result<(), AllocError>
    ensures { OnOk result (Adds (λ fields. FieldsText flows.old kind payload.now fields flows.new)
        text.old text.new) }
{
    match read_chunk(kind, payload) {
        Ok(view) => {
            flows.other();
            show_view(&view, text)
        }
        Err(ChunkFault::Malformed(at)) => {
            flows.other();
            show_malformed(kind, at, text)
        }
        Err(ChunkFault::Unknown(_)) => show_flow(kind, payload, flows, text),
    }
}

/// The same of a chunk of a flow, or of no type that is known.
fn show_flow(
    kind: u8,
    payload: &[u8],
    flows: &mut DataCursor,
    text: &mut Text,
) -> Result<(), AllocError>
    ensures { OnOk result (Adds (λ fields. FlowText flows.old kind payload.now fields flows.new)
        text.old text.new) }
{
    let read = flows.read(kind, payload);
    show_flow_reading(kind, &read, text)
}

fn show_flow_reading(
    kind: u8,
    read: &Result<DataView<'_>, DataFault>,
    text: &mut Text,
) -> Result<(), AllocError>
    ensures { OnOk result (text.new ≡ text.old ++ flow_text kind (shown read.now)) }
{
    match read {
        Ok(view) => show_data_view(view, text),
        Err(DataFault::Unknown(told)) => show_unknown(*told, text),
        Err(DataFault::Malformed(at)) => show_malformed(kind, *at, text),
        Err(DataFault::BadOffset(at)) => show_malformed(kind, *at, text),
    }
}

fn show_unknown(kind: u8, text: &mut Text) -> Result<(), AllocError>
    ensures { OnOk result (text.new ≡ text.old ++ unknown_text kind) }
{
    text.push(" unknown ")?;
    text.push_hex(&[kind])?;
    Ok(())
}

fn show_malformed(kind: u8, at: usize, text: &mut Text) -> Result<(), AllocError>
    ensures { OnOk result (text.new ≡ text.old ++ malformed_text kind at) }
{
    text.push(" malformed ")?;
    text.push(kind_name(kind))?;
    text.push(" ")?;
    text.push_number(at as u64)?;
    Ok(())
}
