//! The datagrams that reach an end. Each is spelled from the number of the end that it comes from.

use crate::timing::calls::{Kind, cert_of, draws, print_of, word_of};
use crypto_profile::{Context, Keys, hmac, seal_in_place, sign_key};
use packet_scramble::{SEALED_AT, scramble};
use std::alloc::AllocError;

/// The group's secret, and the number of its generation.
pub const GROUP: [u8; 32] = [7; 32];

pub const GENERATION: u64 = 0;

pub const COOKIE_SECRET: [u8; 32] = [9; 32];

/// The bytes of a datagram before its plain packet.
const PLAIN_AT: usize = 36;

/// Where the payload of its first chunk begins.
const PAYLOAD_AT: usize = 40;

/// The number of a cookie that comes in the place of another one, with this bit.
const NEW: u32 = 0x8000_0000;

/// The number of a cookie that no attempt has, with this bit.
const UNKNOWN: u32 = 0x4000_0000;

/// Writes the datagram of a kind that comes from the end with this number, sealed; nothing where
/// calls of the kind take none. Where all cookies are alike, they have the number 0.
pub fn write(kind: Kind, number: u32, alike: bool, bytes: &mut Vec<u8>) -> Result<(), AllocError> {
    let known = cookie_of(if alike { 0 } else { number });
    match kind {
        Kind::Hello => write_hello(number, &[74, 16], &draws(number).tag, &known, bytes),
        Kind::Empty => write_hello(number, &[58, 0], &[], &known, bytes),
        Kind::Change => write_change(number, &known, bytes),
        Kind::Unknown => write_change(number, &cookie_of(number | UNKNOWN), bytes),
        Kind::Birth => write_keying(number, bytes),
        Kind::Confirm => write_packet(number, 1, &[1, 1, 0, 0], bytes),
        Kind::Ping => write_packet(number, 2, &[1, 1, 0, 0], bytes),
        Kind::Discard => write_bent(number, bytes),
        Kind::Forget => write_packet(number, 4, &[1, 0x4c, 0, 0], bytes),
        _ => Ok(()),
    }
}

/// Room for the seal, and the beginning of a plain packet behind it.
fn begin(plain: &[u8], bytes: &mut Vec<u8>) -> Result<(), AllocError> {
    bytes.extend_from_slice(&[0; PLAIN_AT])?;
    bytes.extend_from_slice(plain)
}

/// Seals a datagram in a context under a session ID and a count.
fn seal(context: &Context, sid: u32, count: u64, datagram: &mut [u8]) {
    if datagram.len() < PLAIN_AT {
        return;
    }
    let mut number = [0; 16];
    let (_, back) = number.split_at_mut(8);
    back.copy_from_slice(&count.to_be_bytes());
    let (head, part) = datagram.split_at_mut(SEALED_AT);
    seal_in_place(&Keys::of(&GROUP, context), sid, number, part);
    head.copy_from_slice(&scramble(sid, part).to_be_bytes());
}

/// Seals a datagram of the startup.
fn seal_startup(number: u32, bytes: &mut Vec<u8>) {
    let datagram = bytes.as_mut_slice();
    seal(
        &Context::Startup {
            generation: GENERATION,
        },
        0,
        u64::from(number),
        datagram,
    );
}

/// The context of packets to the end with number 0, in its session with the end with this number.
/// Both ends drew the same for it.
fn session(number: u32) -> Context {
    let drawn = draws(number);
    let nonce = drawn.nonce;
    let fp_i = print_of(number);
    let fp_r = print_of(0);
    Context::Session {
        generation: GENERATION,
        ni: nonce,
        nr: nonce,
        fp_i,
        fp_r,
        sid_i: drawn.word,
        sid_r: drawn.word,
        to_responder: true,
    }
}

/// A packet in the session with the end with this number.
fn write_packet(
    number: u32,
    count: u64,
    plain: &[u8],
    bytes: &mut Vec<u8>,
) -> Result<(), AllocError> {
    begin(plain, bytes)?;
    let datagram = bytes.as_mut_slice();
    seal(&session(number), word_of(number), count, datagram);
    Ok(())
}

/// A ping that lost a bit on its way.
fn write_bent(number: u32, bytes: &mut Vec<u8>) -> Result<(), AllocError> {
    write_packet(number, 3, &[1, 1, 0, 0], bytes)?;
    if let Some(byte) = bytes.as_mut_slice().last_mut() {
        *byte ^= 1;
    }
    Ok(())
}

/// The cookie with this number.
fn cookie_of(number: u32) -> [u8; 32] {
    let mut cookie = [0xc0; 32];
    let (_, back) = cookie.split_at_mut(28);
    back.copy_from_slice(&number.to_be_bytes());
    cookie
}

/// The answer to a hello with this tag; the length of its payload and that of the tag stand before
/// it.
fn write_hello(
    number: u32,
    lengths: &[u8; 2],
    tag: &[u8],
    cookie: &[u8; 32],
    bytes: &mut Vec<u8>,
) -> Result<(), AllocError> {
    begin(&[3, 0x70, 0], bytes)?;
    bytes.extend_from_slice(lengths)?;
    bytes.extend_from_slice(tag)?;
    bytes.push(32)?;
    bytes.extend_from_slice(cookie)?;
    bytes.extend_from_slice(&cert_of(number))?;
    seal_startup(number, bytes);
    Ok(())
}

/// The change of a cookie into a new one.
fn write_change(number: u32, old: &[u8; 32], bytes: &mut Vec<u8>) -> Result<(), AllocError> {
    begin(&[3, 0x79, 0, 65, 32], bytes)?;
    bytes.extend_from_slice(old)?;
    bytes.extend_from_slice(&cookie_of(number | NEW))?;
    seal_startup(number, bytes);
    Ok(())
}

/// The keying of the first attempt of the end with this number, towards the end with number 0.
fn write_keying(number: u32, bytes: &mut Vec<u8>) -> Result<(), AllocError> {
    begin(&[3, 0x38, 0, 150], bytes)?;
    bytes.extend_from_slice(&word_of(number).to_be_bytes())?;
    write_own_cookie(number, bytes)?;
    bytes.push(24)?;
    bytes.extend_from_slice(&cert_of(number))?;
    write_component(number, bytes)?;
    let payload = bytes.as_slice().get(PAYLOAD_AT..).unwrap_or(&[]);
    let signature = hmac(&sign_key(&GROUP), payload);
    bytes.extend_from_slice(&signature)?;
    seal_startup(number, bytes);
    Ok(())
}

/// The cookie that the end with number 0 makes for the place of the end with this number.
fn write_own_cookie(number: u32, bytes: &mut Vec<u8>) -> Result<(), AllocError> {
    let [_, second, third, last] = number.to_be_bytes();
    let made = [0, 0, 0, 0, 0, 0, 0, 0, 2, 10, second, third, last, 7, 0x8f];
    let mac = hmac(&COOKIE_SECRET, &made);
    let (front, _) = mac.split_at(16);
    bytes.push(31)?;
    bytes.extend_from_slice(&made)?;
    bytes.extend_from_slice(front)
}

/// The component of a keying.
fn write_component(number: u32, bytes: &mut Vec<u8>) -> Result<(), AllocError> {
    bytes.push(56)?;
    bytes.extend_from_slice(&draws(number).nonce)?;
    bytes.extend_from_slice(&[0, 0, 0, 0, 0, 0, 0, 1])?;
    bytes.extend_from_slice(&print_of(0))
}
