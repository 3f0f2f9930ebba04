//! The calls by which an end introduces others and is narrowed, and the one that asks what it keeps.

ghost use Rattle.std.specs.Prelude.{◌≡◌, false, map, true};
ghost use Rattle.std.specs.List.{list_all};
ghost use Rattle.endpoint_model.specs.Event.{AddRow, Introduce, Narrow};
ghost use Rattle.c_shapes.specs.Numbers as numbers;
ghost use Rattle.c_shapes.specs.Shapes.{is_address, is_limit, placed};
ghost use Rattle.rtmfp_c.specs.Handles.{IsKept, end_in};
ghost use Rattle.rtmfp_c.specs.Making.{Done, DoneIfRoom, Tells, kept_number};

use crate::handle::Handle;
use crate::making::make;
use crate::taking::{put, take};
use c_shapes::{
    ADDRESS, CAddress, CONFIG, EMPTY, MEMORY, addresses_of, are_addresses, is_limit, no_draws,
};
use endpoint::EndCall;
use std::alloc::Global;

/// Adds a row of addresses, with which hellos for the end with this fingerprint are answered.
#[unsafe(no_mangle)]
pub extern "C" fn rtmfp_add_row(
    alloc: Global,
    handle: &mut Handle,
    print: &[u8; 32],
    addresses: &[CAddress],
) -> i32
    ensures refused { list_all is_address addresses.now ≡ false →
        Tells numbers.address result handle.old handle.new }
    ensures done { list_all is_address addresses.now ≡ true → DoneIfRoom 0
        (AddRow print.now (map placed addresses.now)) result handle.old handle.new }
{
    if !are_addresses(addresses) {
        return ADDRESS;
    }
    let Ok(places) = addresses_of(alloc, addresses) else {
        return MEMORY;
    };
    let call = EndCall::AddRow {
        print,
        addresses: places.as_slice(),
    };
    make(alloc, handle, &call, 0, &no_draws())
}

/// Introduces others from now on.
#[unsafe(no_mangle)]
pub extern "C" fn rtmfp_introduce(alloc: Global, handle: &mut Handle) -> i32
    ensures { Done 0 Introduce result handle.old handle.new }
{
    make(alloc, handle, &EndCall::Introduce, 0, &no_draws())
}

/// Has packets of sessions that have more plain bytes than a limit go out in pieces from now on.
#[unsafe(no_mangle)]
pub extern "C" fn rtmfp_narrow(alloc: Global, handle: &mut Handle, limit: u16) -> i32
    ensures refused { is_limit limit ≡ false → Tells numbers.config result handle.old handle.new }
    ensures done { is_limit limit ≡ true → Done 0 (Narrow limit) result handle.old handle.new }
{
    if !is_limit(limit) {
        return CONFIG;
    }
    make(alloc, handle, &EndCall::Narrow(limit), 0, &no_draws())
}

/// Whether the end keeps a session with a peer: 1 or 0.
#[unsafe(no_mangle)]
pub extern "C" fn rtmfp_keeps(alloc: Global, handle: &mut Handle, print: &[u8; 32]) -> i32
    ensures kept { result ≡ kept_number (end_in handle.old) print.now }
    ensures same { IsKept handle.old handle.new }
{
    let Some(node) = take(alloc, handle) else {
        return EMPTY;
    };
    let keeps = node.end.keeps(print);
    put(handle, node);
    if keeps { 1 } else { 0 }
}
