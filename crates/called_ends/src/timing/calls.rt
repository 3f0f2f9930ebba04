//! Calls of an end. What each needs goes by the number of the end that it has to do with.

use crate::timing::datagrams::write;
use endpoint::Draws;
use identity::{Certificate, Epd};
use rtmfp_forms::Address;
use std::alloc::Global;

/// What a call does, or the datagram that it takes.
#[derive(Clone, Copy, Debug)]
pub enum Kind {
    Open,
    /// A search for the end's name, which is begun.
    Seek,
    /// The answer to a hello, with a cookie.
    Hello,
    /// One with a tag without bytes.
    Empty,
    /// The change of a cookie.
    Change,
    /// The change of one that no attempt has.
    Unknown,
    Tick,
    Cancel,
    /// A search that is given up.
    Unseek,
    /// A keying that bears a session.
    Birth,
    /// The first ping in a session.
    Confirm,
    Ping,
    /// A ping that was changed on its way.
    Discard,
    Close,
    /// The answer to a close, with which the session is forgotten.
    Forget,
    /// A flow that is opened in a session.
    Flow,
    /// A message of a byte that is queued in that flow.
    Queue,
    /// The same, and a tick, which sends it.
    Send,
    /// A tick that sends what was queued in all sessions.
    SendAll,
    /// A tick at which all that was sent is lost by time, and is sent again.
    LoseAll,
    /// A tick at which all attempts, or all searches, expire.
    ExpireAll,
    /// A tick at which all half-open sessions end.
    EndAll,
}

impl Kind {
    /// Whether one call does something for each session or attempt.
    pub fn is_for_all(self) -> bool {
        matches!(
            self,
            Kind::SendAll | Kind::LoseAll | Kind::ExpireAll | Kind::EndAll
        )
    }
}

/// A call, the number of the end that it has to do with, and that end's discriminator.
#[derive(Drop)]
pub struct Call {
    pub kind: Kind,
    pub number: u32,
    pub epd: Epd,
    /// Without bytes where it takes no datagram.
    pub datagram: Vec<u8>,
}

/// So many calls of a kind, which have to do with the ends from a number on; all cookies may be one.
#[derive(Clone, Copy)]
pub struct Batch {
    pub kind: Kind,
    pub first: u32,
    pub count: u32,
    pub alike: bool,
}

impl Batch {
    /// The calls.
    pub fn calls(&self, alloc: Global) -> Option<Vec<Call>> {
        let mut calls = Vec::new(alloc);
        for index in 0..self.count {
            let Some(call) = self.call(alloc, self.first.saturating_add(index)) else {
                return None;
            };
            let Ok(()) = calls.push(call) else {
                return None;
            };
        }
        Some(calls)
    }

    /// The call that has to do with the end with this number.
    fn call(&self, alloc: Global, number: u32) -> Option<Call> {
        let mut datagram = Vec::new(alloc);
        let Ok(()) = write(self.kind, number, self.alike, &mut datagram) else {
            return None;
        };
        let print = print_of(number);
        Some(Call {
            kind: self.kind,
            number,
            epd: Epd { print },
            datagram,
        })
    }
}

/// The certificate of the end with this number.
pub fn cert_of(number: u32) -> [u8; 24] {
    let mut bytes = *b"0123456789abcdef........";
    for (index, byte) in bytes.iter_mut().skip(16).enumerate() {
        let shift = 4 * (index as u32 % 8);
        *byte = b'a' + ((number >> shift) % 16) as u8;
    }
    bytes
}

/// The fingerprint of the end with this number.
pub fn print_of(number: u32) -> [u8; 32] {
    match Certificate::read(&cert_of(number)) {
        Ok(cert) => cert.print(),
        Err(_) => [0; 32],
    }
}

/// Where the end with this number is.
pub fn place_of(number: u32) -> Address {
    let [_, second, third, last] = number.to_be_bytes();
    Address::v4([10, second, third, last], 1935)
}

/// A word for each number, in no order.
pub fn word_of(number: u32) -> u32 {
    number.wrapping_mul(2_654_435_761).wrapping_add(1)
}

/// What is drawn for an attempt or a session with the end with this number.
pub fn draws(number: u32) -> Draws {
    let word = word_of(number);
    let mut nonce = [0; 16];
    let (front, _) = nonce.split_at_mut(4);
    front.copy_from_slice(&word.to_be_bytes());
    Draws {
        nonce,
        tag: nonce,
        token: nonce,
        word,
    }
}
