//! What a session is given with a datagram that opens in it.

ghost use Rattle.std.specs.Prelude.{◌≡◌, ◌≤◌, length, Some, IfSome, IfNone};
ghost use Rattle.endpoint_model.specs.Event.{Setup};
ghost use Rattle.endpoint_laws.specs.Past.{Past};
ghost use Rattle.endpoint_laws.specs.Contexts.{Secrets};
ghost use Rattle.endpoint_laws.specs.Taken.{count_in, inward_mode};
ghost use Rattle.log_contexts.specs.Contexts.{OpensInNone};
ghost use Rattle.log_arrivals.specs.Arrived.{HasMode, IsArrived, IsGiven};

use crate::arrival::Arrival;
use crate::arrived::Arrived;
use crypto_profile::{CIPHERED_AT, TAG_LEN};
use glare_core::Held;
use log_contexts::Taking;
use log_packets::{Opener, sid_of};
use packet_scramble::SEALED_AT;
use rtmfp_packet::Mode;

/// What a session is given with a datagram that opens in it, as `Contexts::begin_in` asks it (own).
#[derive(Clone, Copy)]
pub struct Given {
    /// Its session ID at this end.
    pub near: u32,
    /// The session, as it is held or was until it was closed.
    pub thing: Held,
    /// The generation in which it began.
    pub generation: u64,
    /// The count of the datagram's number.
    pub count: u64,
    /// Whether the packet reads, and is one of the session's mode.
    pub fits: bool,
}

/// The count of the number of a datagram, as a session counts its packets (own).
fn count_in(datagram: &[u8]) -> u64
    requires { 36 ≤ length datagram.now }
    ensures { result ≡ count_in datagram.now }
{
    let (_, part) = datagram.split_at(SEALED_AT);
    let number = &part[TAG_LEN..CIPHERED_AT];
    let mut count = [0; 8];
    count.copy_from_slice(&number[8..]);
    u64::from_be_bytes(count)
}

/// The mode of the packets that a session takes.
fn inward_mode(thing: &Held) -> Mode
    ensures { result ≡ inward_mode thing.now }
{
    match thing {
        Held::Opening { .. } => Mode::Startup,
        Held::HalfOpen(_) => Mode::Initiator,
        Held::KeptAsResponder(_) => Mode::Initiator,
        Held::KeptAsInitiator(_) => Mode::Responder,
    }
}

/// Whether the plain packet that is held reads, and has this mode.
fn fits(opener: &Opener, mode: Mode) -> bool
    ensures { HasMode opener.now mode result }
{
    match opener.reads() {
        Some(packet) => packet.head().mode == mode,
        None => false,
    }
}

/// What the session is given in which a datagram opens whose plain packet is held; None exactly
/// where it opens in no session.
pub fn in_session(arrived: &Arrived, opener: &Opener, datagram: &[u8]) -> Option<Given>
    ensures some { (secrets : Secrets) (setup : Setup) (past : Past) →
        IsArrived secrets setup past datagram.now opener.now arrived.now →
        IfSome result (IsGiven secrets setup past datagram.now) }
    ensures none { (secrets : Secrets) (setup : Setup) (past : Past) →
        IsArrived secrets setup past datagram.now opener.now arrived.now →
        IfNone result (OpensInNone secrets setup past (Some datagram.now)) }
{
    let Arrival::Session = arrived.arrival else {
        return None;
    };
    let Taking::Session { thing, generation } = arrived.taking else {
        return None;
    };
    let near = sid_of(datagram)?;
    Some(Given {
        near,
        thing,
        generation,
        count: count_in(datagram),
        fits: fits(opener, inward_mode(&thing)),
    })
}
