//! The beginning of a plain packet that goes out.
ghost use Rattle.std.specs.Prelude.{◌≡◌, ◌≤◌, ◌++◌, length};
ghost use Rattle.rtmfp_packet.specs.Head.{HeadSpells, IsStamp, head_bytes, head_flags, flag_value, mode_number, stamp_bytes};

use crate::head::{Mode, PacketHead};
use rtmfp_forms::Outgoing;

/// A packet that has its head alone. Bits of the flags that say nothing are 0.
pub fn begin_packet(head: &PacketHead) -> Outgoing
    ensures bytes { result ≡ head_bytes head.now }

    // What is written reads as the same head.
    ensures spells { HeadSpells head.now result }
{
    let mut packet = Outgoing::new(flags_of(head));
    append_stamp(head.stamp, &mut packet);
    append_stamp(head.echo, &mut packet);
    packet
}

/// The flags of a head.
fn flags_of(head: &PacketHead) -> u8
    ensures { result ≡ head_flags head.now }
{
    flag_value(head.critical, 0x80)
        + flag_value(head.reverse, 0x40)
        + flag_value(head.stamp.is_some(), 0x08)
        + flag_value(head.echo.is_some(), 0x04)
        + mode_number(head.mode)
}

fn flag_value(is_set: bool, bit: u8) -> u8
    ensures { result ≡ flag_value is_set bit }
{
    if is_set { bit } else { 0 }
}

fn mode_number(mode: Mode) -> u8
    ensures { result ≡ mode_number mode }
{
    match mode {
        Mode::Initiator => 1,
        Mode::Responder => 2,
        Mode::Startup => 3,
    }
}

/// Puts a timestamp or an echo at the end, where there is one.
fn append_stamp(stamp: Option<u16>, packet: &mut Outgoing)
    requires { length packet.old ≤ 8 }
    ensures bytes { packet.new ≡ packet.old ++ stamp_bytes stamp }
    ensures fits { IsStamp stamp }
{
    if let Some(stamp) = stamp {
        packet.append(&stamp.to_be_bytes());
    }
}
