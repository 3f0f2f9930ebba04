//! Datagrams that go out.

ghost use Rattle.std.specs.Prelude.{◌≡◌, ◌+◌, ◌≤◌, length, IfOk};
ghost use Rattle.packet_scramble.specs.Datagram.{datagram};
ghost use Rattle.crypto_profile.specs.Sealing.{sealed};

use crate::contexts::PLAIN_AT;
use crypto_profile::{Keys, seal_into};
use packet_scramble::{SEALED_AT, scramble};
use rtmfp_base::Message;
use rtmfp_base::limits::SENT;
use rtmfp_forms::Outgoing;
use std::alloc::{AllocError, Global};

/// Memory for one datagram, found before anything changes.
pub fn blank(alloc: Global) -> Result<Vec<u8>, AllocError>
    ensures { IfOk result (λ bytes. length bytes.items ≡ 1200) }
{
    vec![in alloc; 0; SENT]
}

/// The datagram of a plain packet under keys, a session ID and a number. It takes no memory.
pub(crate) fn seal(
    mut blank: Vec<u8>,
    keys: &Keys,
    sid: u32,
    number: [u8; 16],
    plain: &Outgoing,
) -> Message
    requires { length blank.items ≡ 1200 }
    ensures datagram { result ≡ datagram sid (sealed keys.now sid number plain.now) }
    ensures short { length result ≤ 1200 }
{
    let plain = plain.bytes();
    blank.truncate(PLAIN_AT + plain.len());
    fill(&mut blank, keys, sid, number, plain);
    blank.shrink_to_fit();
    Message::of(blank)
}

/// Fills a buffer, which is as long as the datagram, with it.
fn fill(buffer: &mut [u8], keys: &Keys, sid: u32, number: [u8; 16], plain: &[u8])
    requires { length buffer.old ≡ 36 + length plain.now }
    ensures { buffer.new ≡ datagram sid (sealed keys.now sid number plain.now) }
{
    let (head, part) = buffer.split_at_mut(SEALED_AT);
    seal_into(keys, sid, number, plain, part);
    let scrambled = scramble(sid, part);
    head.copy_from_slice(&scrambled.to_be_bytes());
}
