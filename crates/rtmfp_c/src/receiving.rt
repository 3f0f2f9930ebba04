//! Datagrams that come in.

ghost use Rattle.std.specs.Prelude.{◌≡◌, ◌<◌, ◌≤◌, false, length, true};
ghost use Rattle.c_shapes.specs.Numbers as numbers;
ghost use Rattle.c_shapes.specs.Shapes.{drawn, is_address, placed};
ghost use Rattle.rtmfp_c.specs.Making.{Takes, Tells, Took};

use crate::handle::Handle;
use crate::taking::{put, take};
use c_shapes::{ADDRESS, CAddress, CDraws, TOO_LONG, address_of, is_address, took_number};
use endpoint::Stopped;
use rtmfp_forms::Address;
use std::alloc::Global;

/// The most bytes of a datagram.
const MOST_BYTES: usize = 2048;

/// Takes a datagram that came from an address, and opens it in place.
#[unsafe(no_mangle)]
pub extern "C" fn rtmfp_receive(
    alloc: Global,
    handle: &mut Handle,
    from: &CAddress,
    moment: u64,
    datagram: &mut [u8],
    draws: &CDraws,
) -> i32
    ensures long { 2048 < length datagram.old →
        Tells numbers.too_long result handle.old handle.new × (datagram.new ≡ datagram.old) }
    ensures place { length datagram.old ≤ 2048 → is_address from.now ≡ false →
        Tells numbers.address result handle.old handle.new × (datagram.new ≡ datagram.old) }
    ensures taken { length datagram.old ≤ 2048 → is_address from.now ≡ true →
        Took (placed from.now) moment datagram.old (drawn draws.now) result handle.old handle.new }
{
    if datagram.len() > MOST_BYTES {
        return TOO_LONG;
    }
    if !is_address(from) {
        return ADDRESS;
    }
    receive(alloc, handle, address_of(from), moment, datagram, draws)
}

/// Takes a datagram of which the arguments are what they may be.
fn receive(
    alloc: Global,
    handle: &mut Handle,
    from: Address,
    moment: u64,
    datagram: &mut [u8],
    draws: &CDraws,
) -> i32
    requires { length datagram.old ≤ 2048 }
    ensures { Took from moment datagram.old (drawn draws.now) result handle.old handle.new }
{
    took_number(hand_in(alloc, handle, from, moment, datagram, draws))
}

/// Has the end of a handle take a datagram, if there is one.
fn hand_in(
    alloc: Global,
    handle: &mut Handle,
    from: Address,
    moment: u64,
    datagram: &mut [u8],
    draws: &CDraws,
) -> Option<Result<(), Stopped>>
    requires { length datagram.old ≤ 2048 }
    ensures { Takes from moment datagram.old (drawn draws.now) result handle.old handle.new }
{
    let Some(mut node) = take(alloc, handle) else {
        return None;
    };
    let answered = node.receive(from, moment, datagram, draws);
    put(handle, node);
    Some(answered)
}
