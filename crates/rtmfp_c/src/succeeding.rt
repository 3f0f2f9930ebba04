//! The calls by which an end goes over to the next secret of its group.

ghost use Rattle.std.specs.Prelude.{◌≡◌};
ghost use Rattle.endpoint_model.specs.Event.{Advance, Learn};
ghost use Rattle.rtmfp_c.specs.Making.{Gives};

use crate::handle::Handle;
use crate::making::make_for;
use c_shapes::no_draws;
use endpoint::EndCall;
use std::alloc::Global;

/// Learns the secret of the group's next generation, and writes that generation's number.
#[unsafe(no_mangle)]
pub extern "C" fn rtmfp_learn(
    alloc: Global,
    handle: &mut Handle,
    secret: &[u8; 32],
    generation: &mut u64,
) -> i32
    ensures { Gives 0 (Learn secret.now) result generation.old generation.new handle.old
        handle.new }
{
    let call = EndCall::Learn { secret };
    make_for(alloc, handle, &call, 0, &no_draws(), generation)
}

/// Goes over to the next generation, and writes its number.
#[unsafe(no_mangle)]
pub extern "C" fn rtmfp_advance(alloc: Global, handle: &mut Handle, generation: &mut u64) -> i32
    ensures { Gives 0 Advance result generation.old generation.new handle.old handle.new }
{
    make_for(alloc, handle, &EndCall::Advance, 0, &no_draws(), generation)
}
