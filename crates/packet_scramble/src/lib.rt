//! Session ID scrambling (RFC 7016 section 2.2.2): a datagram is the scrambled session ID, 4 bytes,
//! and the encrypted packet. The scrambled ID is the session ID XOR the first two 32-bit words of
//! the encrypted packet.
//!
//! Own: an encrypted packet that is shorter than 8 bytes counts as padded with zeros.
#![tactic(auto)]

ghost use Rattle.std.specs.Prelude.{◌≡◌, ◌+◌, slice_index, ◌++◌};
ghost use Rattle.std.specs.Int.{w32, to_be_bytes, from_be_bytes};
ghost use Rattle.packet_scramble.specs.Datagram.{datagram, first_word, second_word, scrambled, unscrambled};

pub mod edges;
pub mod laws;

/// The bytes of a datagram before its sealed part: the scrambled session ID.
pub const SEALED_AT: usize = 4;

// A sealed part's byte at an offset, 0 past its end.
fn byte_at(sealed: &[u8], at: usize) -> u8
    ensures { result ≡ slice_index sealed.now at }
{
    if at < sealed.len() { sealed[at] } else { 0 }
}

// The session ID and the scrambled one differ by these bits.
fn first_word_of(sealed: &[u8]) -> u32
    ensures { result ≡ first_word sealed.now }
{
    u32::from_be_bytes([
        byte_at(sealed, 0),
        byte_at(sealed, 1),
        byte_at(sealed, 2),
        byte_at(sealed, 3),
    ])
}

fn second_word_of(sealed: &[u8]) -> u32
    ensures { result ≡ second_word sealed.now }
{
    u32::from_be_bytes([
        byte_at(sealed, 4),
        byte_at(sealed, 5),
        byte_at(sealed, 6),
        byte_at(sealed, 7),
    ])
}

/// The scrambled session ID of a session ID and the sealed part that goes under it.
pub fn scramble(sid: u32, sealed: &[u8]) -> u32
    ensures value { result ≡ scrambled sid sealed.now }
    ensures datagram { to_be_bytes w32 result ++ sealed.now ≡ datagram sid sealed.now }
{
    sid ^ first_word_of(sealed) ^ second_word_of(sealed)
}

/// The session ID of a scrambled session ID and the sealed part that follows it.
pub fn unscramble(ssid: u32, sealed: &[u8]) -> u32
    ensures value { result ≡ unscrambled ssid sealed.now }
    ensures datagram { datagram result sealed.now ≡ to_be_bytes w32 ssid ++ sealed.now }
{
    ssid ^ first_word_of(sealed) ^ second_word_of(sealed)
}
