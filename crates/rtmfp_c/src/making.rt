//! Calls of an end that is in a handle.

ghost use Rattle.endpoint.specs.Calls.{IsWithin, call_of};
ghost use Rattle.rtmfp_c.specs.Making.{Done, Finds, Gives, Leaves};

use crate::handle::Handle;
use crate::taking::{put, take};
use c_shapes::{give, give_near, told_number};
use endpoint::{Answered, Draws, EndCall};
use std::alloc::Global;

/// Makes a call of the end that is in a handle, if there is one.
fn answer(
    alloc: Global,
    handle: &mut Handle,
    call: &EndCall<'_>,
    moment: u64,
    draws: &Draws,
) -> Option<Answered>
    requires { IsWithin call.now }
    ensures { Leaves moment (call_of call.now draws.now) result handle.old handle.new }
{
    let Some(mut node) = take(alloc, handle) else {
        return None;
    };
    let answered = node.call(call, moment, draws);
    put(handle, node);
    Some(answered)
}

/// Makes a call that gives no number.
pub(crate) fn make(
    alloc: Global,
    handle: &mut Handle,
    call: &EndCall<'_>,
    moment: u64,
    draws: &Draws,
) -> i32
    requires { IsWithin call.now }
    ensures { Done moment (call_of call.now draws.now) result handle.old handle.new }
{
    told_number(answer(alloc, handle, call, moment, draws))
}

/// Makes a call that gives a number, and writes it.
pub(crate) fn make_for(
    alloc: Global,
    handle: &mut Handle,
    call: &EndCall<'_>,
    moment: u64,
    draws: &Draws,
    number: &mut u64,
) -> i32
    requires { IsWithin call.now }
    ensures { Gives moment (call_of call.now draws.now) result number.old number.new handle.old
        handle.new }
{
    let answered = answer(alloc, handle, call, moment, draws);
    give(answered, number);
    told_number(answered)
}

/// Makes a call that gives a session ID, and writes it.
pub(crate) fn make_near(
    alloc: Global,
    handle: &mut Handle,
    call: &EndCall<'_>,
    moment: u64,
    draws: &Draws,
    near: &mut u32,
) -> i32
    requires { IsWithin call.now }
    ensures { Finds moment (call_of call.now draws.now) result near.old near.new handle.old
        handle.new }
{
    let answered = answer(alloc, handle, call, moment, draws);
    give_near(answered, near);
    told_number(answered)
}
