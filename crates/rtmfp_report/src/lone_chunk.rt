//! The only chunk of a plain packet, told by the packet's first bytes.
ghost use Rattle.std.specs.Prelude.{◌≡◌, ◌<◌, drop};
ghost use Rattle.rtmfp_packet.specs.Head.{flag, flagged_len};
ghost use Rattle.rtmfp_report.specs.LoneChunk.{filling_kind, lone_kind, stamps_len};

/// The bits of the flags that announce a timestamp and an echo, counted from the lowest.
const STAMP: u32 = 3;

const ECHO: u32 = 2;

/// The bytes of a chunk before its payload.
const CHUNK_HEAD: usize = 3;

/// The type of the only chunk of a plain packet of `size` bytes that begins with `front`; none
/// where these bytes don't tell that there is only one, or which.
pub(crate) fn lone_kind(size: usize, front: &[u8]) -> Option<u8>
    ensures { result ≡ lone_kind size front.now }
{
    let [flags, rest @ ..] = front else {
        return None;
    };
    if *flags % 4 == 0 {
        return None;
    }
    let stamps = stamps_len(*flags);
    filling_kind(size.saturating_sub(1 + stamps), behind(rest, stamps))
}

/// The bytes behind the first ones.
fn behind(bytes: &[u8], count: usize) -> &[u8]
    ensures { result.now ≡ drop count bytes.now }
{
    match bytes.get(count..) {
        Some(rest) => rest,
        None => &[],
    }
}

/// How many bytes of timestamps flags announce.
fn stamps_len(flags: u8) -> usize
    ensures len { result ≡ stamps_len flags }
    ensures few { result < 5 }
{
    flagged_len(is_flagged(flags, STAMP)) + flagged_len(is_flagged(flags, ECHO))
}

/// Whether this bit of the flags is set.
fn is_flagged(flags: u8, bit: u32) -> bool
    requires { bit < 8 }
    ensures { result ≡ flag flags bit }
{
    flags >> bit & 1 == 1
}

/// Two bytes for what is flagged.
fn flagged_len(is_flagged: bool) -> usize
    ensures len { result ≡ flagged_len is_flagged }
    ensures few { result < 3 }
{
    if is_flagged { 2 } else { 0 }
}

/// The type of a chunk that begins with these bytes and fills a body of `size` bytes, but for at
/// most two.
fn filling_kind(size: usize, bytes: &[u8]) -> Option<u8>
    ensures { result ≡ filling_kind size bytes.now }
{
    let [kind, high, low, ..] = bytes else {
        return None;
    };
    let end = CHUNK_HEAD + usize::from(u16::from_be_bytes([*high, *low]));
    if size < end || end + 2 < size || *kind == 0x00 || *kind == 0xff {
        return None;
    }
    Some(*kind)
}
