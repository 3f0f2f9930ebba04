//! The structs of rtmfp.h (own form).

ghost use Rattle.std.specs.Prelude.{◌≡◌, ◌≤◌, true};
ghost use Rattle.c_shapes.specs.Shapes.{drawn, is_config, is_limit, message_options, nowhere};
ghost use Rattle.c_shapes.specs.Shapes.{origin_of, placed, shown_address};

use endpoint_model::Draws;
use flow_send::MessageOptions;
use rtmfp_forms::Address;

/// The limits of an end.
#[repr(C)]
#[derive(Drop)]
pub struct CConfig {
    pub max_peers: u32,
    pub max_sessions: u32,
    /// Whether the end introduces others: any number but 0.
    pub introduces: u32,
}

/// The random values of a call.
#[repr(C)]
#[derive(Drop)]
pub struct CDraws {
    pub nonce: [u8; 16],
    pub tag: [u8; 16],
    pub token: [u8; 16],
    pub word: u32,
}

/// A transport address.
#[repr(C)]
#[derive(Clone, Copy)]
pub struct CAddress {
    /// 4 or 6.
    pub family: u8,
    /// Where it comes from: 0 unknown, 1 local, 2 observed, 3 relay.
    pub origin: u8,
    pub port: u16,
    /// The host, most significant byte first, of which an IPv4 address has the first four bytes.
    pub host: [u8; 16],
}

/// One entry of the outbox, tagged by its kind. Which fields a kind has, tells rtmfp.h; the others
/// are 0.
#[repr(C)]
#[derive(Drop)]
pub struct CEntry {
    pub kind: u32,
    /// A session's ID at this end.
    pub near: u32,
    /// A session's ID at the peer.
    pub far: u32,
    /// Why something ended, or the number of a discard's cause.
    pub code: u32,
    pub flow: u64,
    /// The number of a message's first fragment, or a place in a plain packet.
    pub seq: u64,
    /// The number of an attempt, or the value of a discard's cause.
    pub number: u64,
    /// How many attempts the responder had started.
    pub k: u64,
    /// Where the bytes of a datagram, a message or a name stand; null where there are none.
    pub at: *const u8,
    pub len: usize,
    pub to: CAddress,
    pub peer: [u8; 32],
    pub ni: [u8; 16],
    pub nr: [u8; 16],
}

/// Whether the limits are in their ranges: 1 to 1,048,576 peers, and 1 to 65,536 sessions.
pub fn is_config(config: &CConfig) -> bool
    ensures value { result ≡ is_config config.now }
    ensures few { result ≡ true → config.now.max_sessions ≤ 65536 }
{
    config.max_peers >= 1
        && config.max_peers <= 1_048_576
        && config.max_sessions >= 1
        && config.max_sessions <= 65_536
}

/// Whether an end may be narrowed to a limit.
pub fn is_limit(limit: u16) -> bool
    ensures value { result ≡ is_limit limit }
    ensures within { result ≡ true → (96 ≤ limit) × (limit ≤ 1164) }
{
    limit >= 96 && limit <= 1164
}

/// The draws of a call.
pub fn draws_of(draws: &CDraws) -> Draws
    ensures { result ≡ drawn draws.now }
{
    Draws {
        nonce: draws.nonce,
        tag: draws.tag,
        token: draws.token,
        word: draws.word,
    }
}

/// Draws for a call that takes none.
pub fn no_draws() -> Draws {
    Draws {
        nonce: [0; 16],
        tag: [0; 16],
        token: [0; 16],
        word: 0,
    }
}

/// How long a message is sent, where all ones are no limit.
pub fn options_of(deadline: u64, resends: u32) -> MessageOptions
    ensures { result ≡ message_options deadline resends }
{
    MessageOptions {
        deadline: if deadline == u64::MAX {
            None
        } else {
            Some(deadline)
        },
        resends: if resends == u32::MAX {
            None
        } else {
            Some(resends)
        },
    }
}

/// The address that a struct tells, in whatever form it is. Of an IPv4 host the first four bytes
/// count.
pub fn address_of(given: &CAddress) -> Address
    ensures { result ≡ placed given.now }
{
    let host = given.host;
    let port = given.port;
    let origin = origin_of(given.origin);
    if given.family == 6 {
        Address {
            v6: true,
            origin,
            host,
            port,
        }
    } else {
        let place = Address::v4([host[0], host[1], host[2], host[3]], port);
        with_origin(&place, origin)
    }
}

/// An origin that there is, or else 0.
fn origin_of(given: u8) -> u8
    ensures value { result ≡ origin_of given }
    ensures few { result ≤ 3 }
{
    if given <= 3 { given } else { 0 }
}

/// An address with another origin.
fn with_origin(place: &Address, origin: u8) -> Address
    requires { origin ≤ 3 }
    ensures { result ≡ record place.now { origin = origin } }
{
    Address {
        v6: place.v6,
        origin,
        host: place.host,
        port: place.port,
    }
}

/// The struct of an address.
pub(crate) fn shown_address(place: &Address) -> CAddress
    ensures { result ≡ shown_address place.now }
{
    CAddress {
        family: if place.v6 { 6 } else { 4 },
        origin: place.origin,
        port: place.port,
        host: place.host,
    }
}

/// No address: of the family 0.
pub(crate) fn nowhere() -> CAddress
    ensures { result ≡ nowhere }
{
    CAddress {
        family: 0,
        origin: 0,
        port: 0,
        host: [0; 16],
    }
}
