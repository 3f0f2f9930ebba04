//! The head of a plain packet: its flags, and the timestamp and the echo where they are flagged.
ghost use Rattle.std.specs.Prelude.{◌≡◌, ◌%◌, ◌<◌, ◌++◌, length, true, is_some, IfOk, IfErr};
ghost use Rattle.rtmfp_packet.specs.Head.{IsStamp, stamp_bytes, mode_number, flag};
ghost use Rattle.rtmfp_packet.specs.Reading.{HeadReads};

use thiserror::Error;

/// Which side of a session sent a packet, or that it belongs to the startup of one.
#[derive(Clone, Copy, Debug, PartialEq, Eq)]
pub enum Mode {
    /// Sent by the initiator of the session: 1.
    Initiator,
    /// Sent by the responder of the session: 2.
    Responder,
    /// Sent in the startup of a session: 3.
    Startup,
}

/// The head of a plain packet.
#[derive(Clone, Copy, Debug, PartialEq, Eq)]
pub struct PacketHead {
    /// The packet is sent for a time critical flow.
    pub critical: bool,
    /// The sender receives time critical flows.
    pub reverse: bool,
    /// The sender's clock in units of 4 ms, modulo 65,536.
    pub stamp: Option<u16>,
    /// The timestamp that came last, with the time since then added.
    pub echo: Option<u16>,
    /// Who sent the packet.
    pub mode: Mode,
}

/// Why bytes are no plain packet.
#[derive(Clone, Copy, Debug, PartialEq, Eq, Error)]
pub enum PacketFault {
    /// There is no byte.
    #[error("an empty packet")]
    Empty,
    /// The mode bits are 0.
    #[error("a packet with mode 0")]
    ModeZero,
    /// A flagged timestamp or echo isn't there whole.
    #[error("a packet whose timestamp is cut off")]
    ShortStamp,
}

/// The bits of the flags, counted from the lowest.
const CRITICAL: u32 = 7;

const REVERSE: u32 = 6;

const STAMP: u32 = 3;

const ECHO: u32 = 2;

/// Reads the head of these flags from what follows them, and gives it with what follows it.
pub(crate) fn read_head(flags: u8, bytes: &[u8]) -> Result<(PacketHead, &[u8]), PacketFault>
    ensures { HeadReads flags bytes.now result }
{
    let mode = read_mode(flags)?;
    let (stamp, bytes) = read_stamp(is_flagged(flags, STAMP), bytes)?;
    let (echo, bytes) = read_stamp(is_flagged(flags, ECHO), bytes)?;
    let head = PacketHead {
        critical: is_flagged(flags, CRITICAL),
        reverse: is_flagged(flags, REVERSE),
        stamp,
        echo,
        mode,
    };
    Ok((head, bytes))
}

/// Whether this bit of the flags is set.
fn is_flagged(flags: u8, bit: u32) -> bool
    requires { bit < 8 }
    ensures { result ≡ flag flags bit }
{
    flags >> bit & 1 == 1
}

/// The mode that the flags name.
fn read_mode(flags: u8) -> Result<Mode, PacketFault>
    ensures ok { IfOk result (λ mode. flags % 4 ≡ mode_number mode) }
    ensures err { IfErr result (λ fault. (fault ≡ PacketFault.ModeZero) × (flags % 4 ≡ 0)) }
{
    match flags & 3 {
        0 => Err(PacketFault::ModeZero),
        1 => Ok(Mode::Initiator),
        2 => Ok(Mode::Responder),
        _ => Ok(Mode::Startup),
    }
}

/// Reads the two bytes of a timestamp or an echo where it is flagged.
fn read_stamp(flagged: bool, bytes: &[u8]) -> Result<(Option<u16>, &[u8]), PacketFault>
    ensures ok { IfOk result (λ found. (flagged ≡ is_some found.0) × IsStamp found.0 ×
        (bytes.now ≡ stamp_bytes found.0 ++ found.1.now)) }
    ensures err { IfErr result (λ fault. (fault ≡ PacketFault.ShortStamp) × (flagged ≡ true) ×
        (length bytes.now < 2)) }
{
    if !flagged {
        return Ok((None, bytes));
    }
    let [high, low, rest @ ..] = bytes else {
        return Err(PacketFault::ShortStamp);
    };
    Ok((Some(u16::from_be_bytes([*high, *low])), rest))
}
