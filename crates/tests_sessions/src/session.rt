//! Packets between the two ends of a session.

use crate::keying::address;
use crate::lines::{bytes_of, put};
use crate::profile::secret;
use glare_core::Joined;
use packet_scramble::{scramble, unscramble};
use rtmfp_packet::{Mode, PacketHead, begin_packet};
use session_core::{Role, Session, Unheard};
use std::alloc::Global;
use std::test::Fail;

/// A ping of the initiator at 1,000 ms, and the responder's answer at 1,500 ms.
const DATAGRAMS: &str =
    "ping c412eafe4d22394f8930d3b72de86d57ec51920100000000000000000000000000000001c7ab50c48ee6
pingreply ee22516482e2a84b6cc0f92ac345b86811cd86950000000000000000000000000000000120b304e9132294bb
";

/// The sealed part of the same ping under a number that has a byte other than 0 among its first 8,
/// under the right keys.
const PART_OF_NO_SESSION: &str =
    "ping-of-no-session f1fc2df93ab79651691390098a6536dd0000000000000001000000000000000146603a29fabc
";

const INITIATOR: [u8; 32] = [3; 32];

const RESPONDER: [u8; 32] = [4; 32];

fn joined(peer: [u8; 32], near: u32, far: u32) -> Joined {
    Joined {
        peer,
        n: 1,
        near,
        far,
        ni: [1; 16],
        nr: [2; 16],
        k: 0,
    }
}

/// A session that begins, of the end with a fingerprint. An initiator calls 10.0.0.2, and is called
/// from 10.0.0.1.
pub(crate) fn begun(
    joined: &Joined,
    print: [u8; 32],
    role: Role,
    secret: [u8; 32],
    moment: u64,
) -> Session {
    let last = match role {
        Role::Initiator => 2,
        Role::Responder => 1,
    };
    Session::new(joined, &print, role, address(last), 0, &secret, moment)
}

fn initiator() -> Session {
    let joined = joined(RESPONDER, 5, 6);
    begun(&joined, INITIATOR, Role::Initiator, secret(), 1000)
}

fn responder() -> Session {
    let joined = joined(INITIATOR, 6, 5);
    begun(&joined, RESPONDER, Role::Responder, secret(), 1000)
}

/// Seals a packet of a session with one chunk without bytes, and gives the length of its datagram.
fn sealed(
    session: &mut Session,
    moment: u64,
    kind: u8,
    out: &mut [u8; 1200],
) -> Result<usize, Fail> {
    let mut packet = begin_packet(&session.head(moment));
    packet.put(&[kind, 0, 0])?;
    Ok(session.seal(&packet, out).ok_or("it isn't sealed")?)
}

/// Puts the session ID at the other end in front of a sealed part.
fn put_id(far: u32, len: usize, out: &mut [u8; 1200]) -> Result<(), Fail> {
    let (head, rest) = out.split_at_mut(4);
    let part = rest.get(..len.saturating_sub(4)).ok_or("it is short")?;
    head.copy_from_slice(&scramble(far, part).to_be_bytes());
    Ok(())
}

/// Adds the line of a packet of a session with one chunk without bytes.
fn put_datagram(
    alloc: Global,
    name: &str,
    session: &mut Session,
    moment: u64,
    kind: u8,
    far: u32,
    lines: &mut String,
) -> Result<(), Fail> {
    let mut out = [0u8; 1200];
    let len = sealed(session, moment, kind, &mut out)?;
    put_id(far, len, &mut out)?;
    put(alloc, name, out.get(..len).unwrap_or(&[]), lines)
}

/// The responder that has taken the stamps of the ping.
fn pinged() -> Session {
    let mut session = responder();
    let taken = PacketHead {
        critical: false,
        reverse: false,
        stamp: Some(250),
        echo: None,
        mode: Mode::Initiator,
    };
    session.take_stamps(&taken, 1000);
    session
}

fn datagrams(alloc: Global) -> Result<String, Fail> {
    let mut lines = String::new(alloc);
    put_datagram(alloc, "ping", &mut initiator(), 1000, 0x01, 6, &mut lines)?;
    put_datagram(alloc, "pingreply", &mut pinged(), 1500, 0x41, 5, &mut lines)?;
    Ok(lines)
}

/// What a session answers to a sealed part, and the plain packet that it leaves.
fn heard(session: &mut Session, part: &mut [u8]) -> Result<bool, Unheard> {
    let plain = session.hear(part)?;
    Ok(part.get(plain) == Some(b"\x09\x00\xfa\x01\x00\x00".as_slice()))
}

/// The bytes of the line with a name, without so many at the front.
fn part_of(alloc: Global, lines: &str, name: &str, front: usize) -> Result<Vec<u8>, Fail> {
    let bytes = bytes_of(alloc, lines, name)?;
    let part = bytes.as_slice().get(front..).unwrap_or(&[]);
    Ok(Vec::from_slice(alloc, part)?)
}

/// Whether a session answers so to the initiator's ping.
fn hears_ping(
    alloc: Global,
    session: &mut Session,
    want: Result<bool, Unheard>,
) -> Result<bool, Fail> {
    let mut part = part_of(alloc, DATAGRAMS, "ping", 4)?;
    Ok(heard(session, part.as_mut_slice()) == want)
}

/// Whether a session hears no part of another number.
fn hears_no_other(alloc: Global, session: &mut Session) -> Result<bool, Fail> {
    let mut part = part_of(alloc, PART_OF_NO_SESSION, "ping-of-no-session", 0)?;
    Ok(heard(session, part.as_mut_slice()) == Err(Unheard::BadTag))
}

/// Whether the responder hears the initiator's ping once, and no part of another number.
fn is_heard_once(alloc: Global) -> Result<bool, Fail> {
    let mut session = responder();
    let other = hears_no_other(alloc, &mut session)?;
    let first = hears_ping(alloc, &mut session, Ok(true))?;
    let second = hears_ping(alloc, &mut session, Err(Unheard::Repeated))?;
    Ok(other && first && second)
}

/// Whether the answer is for the initiator.
fn is_for_initiator(alloc: Global) -> Result<bool, Fail> {
    let back = part_of(alloc, DATAGRAMS, "pingreply", 4)?;
    Ok(unscramble(0xee22_5164, back.as_slice()) == 5)
}

#[test]
fn datagrams_are_those_of_another_program(rt: HostRuntime) -> Result<(), Fail> {
    assert_eq!(rt; datagrams(rt.alloc())?.as_str(), DATAGRAMS);
    assert!(rt; is_heard_once(rt.alloc())?);
    assert!(rt; is_for_initiator(rt.alloc())?);
    Ok(())
}
