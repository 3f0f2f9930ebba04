//! The generation of a context, the numbers of its packets, and the session ID of a datagram.

ghost use Rattle.std.specs.Prelude.{◌≡◌, length, ◌≤◌, drop};
ghost use Rattle.endpoint_laws.specs.Contexts.{generation_of};
ghost use Rattle.std.specs.Option.{option_copied};
ghost use Rattle.log_packets.specs.Opening.{fits, part_for, sid_in};

use crypto_profile::{CIPHERED_AT, Context, TAG_LEN};
use packet_scramble::{SEALED_AT, unscramble};

/// The generation of a context.
pub fn generation_of(context: &Context) -> u64
    ensures { result ≡ generation_of context.now }
{
    match context {
        Context::Startup { generation } => *generation,
        Context::Session { generation, .. } => *generation,
    }
}

/// The session ID of a datagram (RFC 7016 section 2.2.2); None where it has fewer than 36 bytes,
/// and so opens nowhere.
pub fn sid_of(datagram: &[u8]) -> Option<u32>
    ensures { result ≡ sid_in datagram.now }
{
    if datagram.len() < 36 {
        return None;
    }
    let (front, part) = datagram.split_at(SEALED_AT);
    let mut scrambled = [0; 4];
    scrambled.copy_from_slice(front);
    Some(unscramble(u32::from_be_bytes(scrambled), part))
}

/// The first zeros of the number of a session's packet (own).
const ZEROS: [u8; 8] = [0; 8];

/// Whether packets of the context may have this number.
fn fits(context: &Context, number: &[u8]) -> bool
    requires { 8 ≤ length number.now }
    ensures { result ≡ fits context.now number.now }
{
    match context {
        Context::Startup { .. } => true,
        Context::Session { .. } => &number[..8] == ZEROS.as_slice(),
    }
}

/// The sealed part of a datagram that goes under the session ID, where its number is one of the
/// context.
pub(crate) fn part_for<'a>(context: &Context, sid: u32, datagram: &'a [u8]) -> Option<&'a [u8]>
    ensures { option_copied result ≡ part_for context.now sid datagram.now }
{
    if sid_of(datagram)? != sid {
        return None;
    }
    let (_, part) = datagram.split_at(SEALED_AT);
    if !fits(context, &part[TAG_LEN..CIPHERED_AT]) {
        return None;
    }
    Some(part)
}
