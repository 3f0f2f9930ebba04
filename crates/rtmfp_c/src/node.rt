//! An end with its outbox.

ghost use Rattle.std.specs.Prelude.{◌≤◌, length};
ghost use Rattle.endpoint.specs.Calls.{IsWithin, call_of};
ghost use Rattle.c_shapes.specs.Shapes.{drawn};
ghost use Rattle.rtmfp_c.specs.Going.{Makes, Receives};

use c_shapes::{CDraws, draws_of};
use endpoint::{Answered, Draws, EndCall, Endpoint, Outbox, Stopped};
use rtmfp_forms::Address;

/// An end, and the entries that its calls added since they were dropped.
#[derive(Drop)]
pub struct Node {
    pub(crate) end: Endpoint,
    pub(crate) out: Outbox,
}

impl Node {
    /// Makes a call of the end.
    pub(crate) fn call(&mut self, call: &EndCall<'_>, moment: u64, draws: &Draws) -> Answered
        requires { IsWithin call.now }
        ensures { Makes moment (call_of call.now draws.now) result self.old self.new }
    {
        self.end.call(call, moment, draws, &mut self.out)
    }

    /// Has the end take a datagram.
    pub(crate) fn receive(
        &mut self,
        from: Address,
        moment: u64,
        datagram: &mut [u8],
        draws: &CDraws,
    ) -> Result<(), Stopped>
        requires { length datagram.old ≤ 2048 }
        ensures { Receives from moment datagram.old (drawn draws.now) result self.old self.new }
    {
        let draws = draws_of(draws);
        self.end
            .receive(from, moment, datagram, &draws, &mut self.out)
    }
}
