//! The calls on the flows of sessions.

ghost use Rattle.std.specs.Prelude.{◌≡◌, if◌then◌else◌, nat_eq, None, Some};
ghost use Rattle.endpoint_model.specs.Event.{OnFlows};
ghost use Rattle.endpoint_model.specs.FlowCall.{Abandon, Finish, OpenFlow, Queue};
ghost use Rattle.c_shapes.specs.Shapes.{message_options};
ghost use Rattle.rtmfp_c.specs.Making.{Done, Gives};

use crate::handle::Handle;
use crate::making::{make, make_for};
use c_shapes::{no_draws, options_of};
use endpoint::EndCall;
use std::alloc::Global;

/// Opens a flow in a session, and writes its ID. It answers the peer's flow `answered`, if
/// `answers` isn't 0.
#[unsafe(no_mangle)]
pub extern "C" fn rtmfp_open_flow(
    alloc: Global,
    handle: &mut Handle,
    near: u32,
    priority: u8,
    metadata: &[u8],
    answers: u32,
    answered: u64,
    flow: &mut u64,
) -> i32
    ensures { Gives 0 (OnFlows near (OpenFlow priority metadata.now
        (if nat_eq answers 0 then None else Some answered))) result flow.old flow.new handle.old
        handle.new }
{
    let answers = if answers == 0 { None } else { Some(answered) };
    let call = EndCall::OpenFlow {
        near,
        priority,
        metadata,
        answers,
    };
    make_for(alloc, handle, &call, 0, &no_draws(), flow)
}

/// Queues a message in a flow, and writes the number of its first fragment.
#[unsafe(no_mangle)]
pub extern "C" fn rtmfp_queue(
    alloc: Global,
    handle: &mut Handle,
    near: u32,
    flow: u64,
    message: &[u8],
    deadline: u64,
    resends: u32,
    seq: &mut u64,
) -> i32
    ensures { Gives 0 (OnFlows near (Queue flow message.now (message_options deadline resends)))
        result seq.old seq.new handle.old handle.new }
{
    let call = EndCall::Queue {
        near,
        flow,
        message,
        options: options_of(deadline, resends),
    };
    make_for(alloc, handle, &call, 0, &no_draws(), seq)
}

/// Abandons a message of a flow.
#[unsafe(no_mangle)]
pub extern "C" fn rtmfp_abandon(
    alloc: Global,
    handle: &mut Handle,
    near: u32,
    flow: u64,
    seq: u64,
) -> i32
    ensures { Done 0 (OnFlows near (Abandon flow seq)) result handle.old handle.new }
{
    let call = EndCall::Abandon { near, flow, seq };
    make(alloc, handle, &call, 0, &no_draws())
}

/// Finishes a flow.
#[unsafe(no_mangle)]
pub extern "C" fn rtmfp_finish(alloc: Global, handle: &mut Handle, near: u32, flow: u64) -> i32
    ensures { Done 0 (OnFlows near (Finish flow)) result handle.old handle.new }
{
    let call = EndCall::Finish { near, flow };
    make(alloc, handle, &call, 0, &no_draws())
}
