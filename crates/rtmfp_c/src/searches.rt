//! The calls by which an end is searched for by its service name.

ghost use Rattle.std.specs.Prelude.{◌≡◌, false, map, true, IfSome, None};
ghost use Rattle.std.specs.List.{list_all};
ghost use Rattle.identity.specs.ServiceNames.{service_name_of};
ghost use Rattle.endpoint_model.specs.Event.{Seek, Unseek};
ghost use Rattle.c_shapes.specs.Numbers as numbers;
ghost use Rattle.c_shapes.specs.Shapes.{drawn, is_address, placed};
ghost use Rattle.rtmfp_c.specs.Making.{Done, FindsIfRoom, Seeks, Tells};

use crate::handle::Handle;
use crate::making::{make, make_near};
use c_shapes::{
    ADDRESS, CAddress, CDraws, MEMORY, NAME, addresses_of, are_addresses, draws_of, no_draws,
};
use endpoint::EndCall;
use identity::ServiceName;
use std::alloc::Global;

/// Begins a search for an end whose certificate has this name, and writes its session ID.
#[unsafe(no_mangle)]
pub extern "C" fn rtmfp_seek(
    alloc: Global,
    handle: &mut Handle,
    name: &[u8],
    candidates: &[CAddress],
    moment: u64,
    draws: &CDraws,
    near: &mut u32,
) -> i32
    ensures refused { service_name_of name.now ≡ None →
        Tells numbers.name result handle.old handle.new × (near.new ≡ near.old) }
    ensures done { IfSome (service_name_of name.now) (λ name. Seeks name candidates.now moment
        (drawn draws.now) result near.old near.new handle.old handle.new) }
{
    match ServiceName::read(name) {
        Some(name) => seek(alloc, handle, &name, candidates, moment, draws, near),
        None => NAME,
    }
}

/// Begins a search for a name that is one.
fn seek(
    alloc: Global,
    handle: &mut Handle,
    name: &ServiceName,
    candidates: &[CAddress],
    moment: u64,
    draws: &CDraws,
    near: &mut u32,
) -> i32
    ensures { Seeks name.now candidates.now moment (drawn draws.now) result near.old near.new
        handle.old handle.new }
{
    if !are_addresses(candidates) {
        return ADDRESS;
    }
    search(alloc, handle, name, candidates, moment, draws, near)
}

/// Begins a search at addresses that are some.
fn search(
    alloc: Global,
    handle: &mut Handle,
    name: &ServiceName,
    candidates: &[CAddress],
    moment: u64,
    draws: &CDraws,
    near: &mut u32,
) -> i32
    ensures { FindsIfRoom moment (Seek name.now (map placed candidates.now) (drawn draws.now))
        result near.old near.new handle.old handle.new }
{
    let Ok(places) = addresses_of(alloc, candidates) else {
        return MEMORY;
    };
    let call = EndCall::Seek {
        name,
        candidates: places.as_slice(),
    };
    make_near(alloc, handle, &call, moment, &draws_of(draws), near)
}

/// Gives a search up.
#[unsafe(no_mangle)]
pub extern "C" fn rtmfp_unseek(alloc: Global, handle: &mut Handle, near: u32) -> i32
    ensures { Done 0 (Unseek near) result handle.old handle.new }
{
    make(alloc, handle, &EndCall::Unseek { near }, 0, &no_draws())
}
