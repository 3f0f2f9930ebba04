//! The entries of the outbox, as the struct of rtmfp.h.

ghost use Rattle.std.specs.Prelude.{◌≡◌, length};
ghost use Rattle.std.specs.Ptr.{as_ptr};
ghost use Rattle.c_shapes.specs.Shown.{blank, bytes_of, shown, shown_fact, shown_flow};
ghost use Rattle.c_shapes.specs.Shown.{shown_joined};

use crate::address::address;
use crate::causes::{cause_shown, refusal_shown, why_number};
use crate::shapes::{CEntry, nowhere, shown_address};
use endpoint_model::Entry;
use glare_core::{Fact, Joined};
use std::ptr::null;

/// The struct of an entry. Its pointer leads to the entry's bytes, if it has any, and is good as
/// long as the entry stands where it is.
pub fn entry_of(entry: &Entry) -> CEntry
    ensures { result ≡ shown result.at entry.now }
{
    match entry {
        Entry::Out { to, datagram, .. } => {
            let mut told = with_bytes(blank(1), datagram.bytes());
            told.to = shown_address(to);
            told
        }
        Entry::Handed {
            near,
            flow,
            seq,
            message,
        } => with_bytes(shown_flow(2, *near, *flow, *seq), message.bytes()),
        Entry::Fact(fact) => shown_fact(fact),
        Entry::Closed { near } => near_alone(8, *near),
        Entry::Sought { near, name } => with_bytes(near_alone(15, *near), name.bytes()),
        Entry::Unsought { near, why } => {
            let mut told = near_alone(16, *near);
            told.code = why_number(why);
            told
        }
        Entry::Moved { near, to } => {
            let mut told = near_alone(9, *near);
            told.to = shown_address(to);
            told
        }
        Entry::Learnt { generation } => numbered(17, *generation),
        Entry::Advanced { generation } => numbered(18, *generation),
        Entry::FlowOpened { near, flow } => shown_flow(10, *near, *flow, 0),
        Entry::Queued {
            near,
            flow,
            seq,
            message,
        } => with_bytes(shown_flow(11, *near, *flow, *seq), message.bytes()),
        Entry::Finished { near, flow, seq } => shown_flow(12, *near, *flow, *seq),
        Entry::Abandoned { near, flow, seq } => shown_flow(13, *near, *flow, *seq),
        Entry::Discard { place, cause } => {
            let (code, value) = cause_shown(cause);
            let mut told = blank(14);
            told.seq = u64::from(*place);
            told.code = code;
            told.number = value;
            told.k = refusal_shown(cause);
            told
        }
    }
}

/// The bytes of a datagram, a message or a name; none of any other entry.
pub fn bytes_of(entry: &Entry) -> &[u8]
    ensures { result.now ≡ bytes_of entry.now }
{
    match entry {
        Entry::Out { datagram, .. } => datagram.bytes(),
        Entry::Handed { message, .. } => message.bytes(),
        Entry::Fact(_) => &[],
        Entry::Closed { .. } => &[],
        Entry::Sought { name, .. } => name.bytes(),
        Entry::Unsought { .. } => &[],
        Entry::Moved { .. } => &[],
        Entry::Learnt { .. } => &[],
        Entry::Advanced { .. } => &[],
        Entry::FlowOpened { .. } => &[],
        Entry::Queued { message, .. } => message.bytes(),
        Entry::Finished { .. } => &[],
        Entry::Abandoned { .. } => &[],
        Entry::Discard { .. } => &[],
    }
}

/// An entry that tells its kind alone.
fn blank(kind: u32) -> CEntry
    ensures { result ≡ blank kind }
{
    CEntry {
        kind,
        near: 0,
        far: 0,
        code: 0,
        flow: 0,
        seq: 0,
        number: 0,
        k: 0,
        at: null(),
        len: 0,
        to: nowhere(),
        peer: [0; 32],
        ni: [0; 16],
        nr: [0; 16],
    }
}

/// An entry that tells its kind and a session's ID.
fn near_alone(kind: u32, near: u32) -> CEntry
    ensures { result ≡ record (blank kind) { near = near } }
{
    let mut told = blank(kind);
    told.near = near;
    told
}

/// An entry that tells its kind and a number.
fn numbered(kind: u32, number: u64) -> CEntry
    ensures { result ≡ record (blank kind) { number = number } }
{
    let mut told = blank(kind);
    told.number = number;
    told
}

/// An entry of one of a session's flows.
fn shown_flow(kind: u32, near: u32, flow: u64, seq: u64) -> CEntry
    ensures { result ≡ shown_flow kind near flow seq }
{
    let mut told = near_alone(kind, near);
    told.flow = flow;
    told.seq = seq;
    told
}

/// An entry with its bytes.
fn with_bytes(bare: CEntry, bytes: &[u8]) -> CEntry
    ensures { result ≡ record bare { at = as_ptr bytes.entry; len = length bytes.now } }
{
    let mut told = bare;
    told.at = address(bytes);
    told.len = bytes.len();
    told
}

/// The entry of a fact.
fn shown_fact(fact: &Fact) -> CEntry
    ensures { result ≡ shown_fact fact.now }
{
    match fact {
        Fact::Started { peer, n, near, ni } => {
            let (peer, ni) = (*peer, *ni);
            let mut told = near_alone(3, *near);
            told.number = *n;
            told.peer = peer;
            told.ni = ni;
            told
        }
        Fact::Born(joined) => shown_joined(4, joined),
        Fact::Opened(joined) => shown_joined(5, joined),
        Fact::Confirmed { peer, near } => {
            let peer = *peer;
            let mut told = near_alone(6, *near);
            told.peer = peer;
            told
        }
        Fact::Ended { peer, near, why } => {
            let peer = *peer;
            let mut told = near_alone(7, *near);
            told.peer = peer;
            told.code = why_number(why);
            told
        }
    }
}

/// The entry of a fact of a session.
fn shown_joined(kind: u32, joined: &Joined) -> CEntry
    ensures { result ≡ shown_joined kind joined.now }
{
    let (peer, ni, nr) = (joined.peer, joined.ni, joined.nr);
    let mut told = near_alone(kind, joined.near);
    told.far = joined.far;
    told.number = joined.n;
    told.k = joined.k;
    told.peer = peer;
    told.ni = ni;
    told.nr = nr;
    told
}
