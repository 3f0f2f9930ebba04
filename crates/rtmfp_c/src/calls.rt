//! The calls on an end and on its sessions.

ghost use Rattle.std.specs.Prelude.{◌≡◌, ◌≤◌, ◌⊎◌, false, map, true, IfNone, IfSome, None};
ghost use Rattle.std.specs.List.{list_all};
ghost use Rattle.sha2.specs.Sha256.{sha256};
ghost use Rattle.identity.specs.Certificates.{certificate_fault};
ghost use Rattle.endpoint_model.specs.Event.{Cancel, Close, Open, Tick};
ghost use Rattle.c_shapes.specs.Numbers as numbers;
ghost use Rattle.c_shapes.specs.Shapes.{drawn, is_address, placed, setup_of};
ghost use Rattle.rtmfp_c.specs.Going.{IsFresh};
ghost use Rattle.rtmfp_c.specs.Handles.{end_in};
ghost use Rattle.rtmfp_c.specs.Making.{Begins, Done, GivesIfRoom, Tells, new_refusal};

use crate::handle::Handle;
use crate::making::{make, make_for};
use crate::node::Node;
use crate::taking::{is_live, put, take};
use c_shapes::{
    ADDRESS, CAddress, CConfig, CDraws, CERTIFICATE, CONFIG, FULL, MEMORY, OK, addresses_of,
    are_addresses, draws_of, is_config, no_draws,
};
use endpoint::{Config, EndCall, Endpoint, Outbox};
use identity::Certificate;
use std::alloc::Global;

/// How many entries an outbox has room for at first.
const FIRST_ROOM: u32 = 8;

/// The version of the interface.
#[unsafe(no_mangle)]
pub extern "C" fn rtmfp_version() -> u32
    ensures { result ≡ 0x400 }
{
    0x00_04_00
}

/// Writes the fingerprint of a certificate.
#[unsafe(no_mangle)]
pub extern "C" fn rtmfp_fingerprint(certificate: &[u8], print: &mut [u8; 32]) -> i32
    ensures ok { certificate_fault certificate.now ≡ None →
        (result ≡ numbers.done) × (print.new ≡ sha256 certificate.now) }
    ensures refused { IfSome (certificate_fault certificate.now)
        (λ _. (result ≡ numbers.certificate) × (print.new ≡ print.old)) }
{
    match Certificate::read(certificate) {
        Ok(certificate) => {
            *print = certificate.print();
            OK
        }
        Err(_) => CERTIFICATE,
    }
}

/// Makes an end in a handle that holds none, with the group's secret in the generation of this
/// number.
#[unsafe(no_mangle)]
pub extern "C" fn rtmfp_new(
    alloc: Global,
    handle: &mut Handle,
    config: &CConfig,
    certificate: &[u8],
    generation: u64,
    group: &[u8; 32],
    cookies: &[u8; 32],
) -> i32
    ensures refused { IfSome (new_refusal handle.old config.now certificate.now)
        (λ code. Tells code result handle.old handle.new) }
    ensures made { IfNone (new_refusal handle.old config.now certificate.now)
        (Tells numbers.no_memory result handle.old handle.new ⊎
        Begins (setup_of config.now certificate.now generation group.now cookies.now) result
        handle.new) }
{
    if is_live(handle) {
        return FULL;
    }
    if !is_config(config) {
        return CONFIG;
    }
    let Ok(certificate) = Certificate::read(certificate) else {
        return CERTIFICATE;
    };
    match new_node(alloc, config, certificate, generation, group, cookies) {
        Some(node) => {
            put(handle, node);
            OK
        }
        None => MEMORY,
    }
}

/// A fresh end, where there is memory.
fn new_node(
    alloc: Global,
    config: &CConfig,
    certificate: Certificate,
    generation: u64,
    group: &[u8; 32],
    cookies: &[u8; 32],
) -> Option<Box<Node>>
    requires { config.now.max_sessions ≤ 65536 }
    ensures { IfSome result (λ node.
        IsFresh (setup_of config.now certificate generation group.now cookies.now) node.value) }
{
    let config = Config {
        max_peers: config.max_peers,
        max_sessions: config.max_sessions,
        introduces: config.introduces != 0,
    };
    let Ok(out) = Outbox::new(alloc, FIRST_ROOM) else {
        return None;
    };
    let end = Endpoint::new(alloc, config, certificate, generation, *group, *cookies);
    match Box::new(alloc, Node { end, out }) {
        Ok(node) => Some(node),
        Err(_) => None,
    }
}

/// Frees the end that a handle holds, if it holds one.
#[unsafe(no_mangle)]
pub extern "C" fn rtmfp_free(alloc: Global, handle: &mut Handle)
    ensures { end_in handle.new ≡ None }
{
    let _node = take(alloc, handle);
}

/// Opens an attempt towards the end with this fingerprint, and writes its number.
#[unsafe(no_mangle)]
pub extern "C" fn rtmfp_open(
    alloc: Global,
    handle: &mut Handle,
    print: &[u8; 32],
    candidates: &[CAddress],
    moment: u64,
    draws: &CDraws,
    number: &mut u64,
) -> i32
    ensures refused { list_all is_address candidates.now ≡ false →
        Tells numbers.address result handle.old handle.new × (number.new ≡ number.old) }
    ensures done { list_all is_address candidates.now ≡ true → GivesIfRoom moment
        (Open print.now (map placed candidates.now) (drawn draws.now)) result number.old number.new
        handle.old handle.new }
{
    if !are_addresses(candidates) {
        return ADDRESS;
    }
    let Ok(places) = addresses_of(alloc, candidates) else {
        return MEMORY;
    };
    let call = EndCall::Open {
        print,
        candidates: places.as_slice(),
    };
    make_for(alloc, handle, &call, moment, &draws_of(draws), number)
}

/// Gives an attempt up.
#[unsafe(no_mangle)]
pub extern "C" fn rtmfp_cancel(alloc: Global, handle: &mut Handle, number: u64) -> i32
    ensures { Done 0 (Cancel number) result handle.old handle.new }
{
    make(
        alloc,
        handle,
        &EndCall::Cancel { n: number },
        0,
        &no_draws(),
    )
}

/// Closes a session.
#[unsafe(no_mangle)]
pub extern "C" fn rtmfp_close(alloc: Global, handle: &mut Handle, near: u32, moment: u64) -> i32
    ensures { Done moment (Close near) result handle.old handle.new }
{
    make(alloc, handle, &EndCall::Close { near }, moment, &no_draws())
}

/// Does all that is due.
#[unsafe(no_mangle)]
pub extern "C" fn rtmfp_tick(alloc: Global, handle: &mut Handle, moment: u64, draws: &CDraws) -> i32
    ensures { Done moment (Tick (drawn draws.now)) result handle.old handle.new }
{
    make(alloc, handle, &EndCall::Tick, moment, &draws_of(draws))
}
