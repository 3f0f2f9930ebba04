//! The keyings of attempts that go out with a datagram.

ghost use Rattle.std.specs.Prelude.{◌≡◌, ℕ, List, IfOk, Some};
ghost use Rattle.packet_scramble.specs.Datagram.{sid_of};
ghost use Rattle.endpoint_model.specs.Views.{Sending};
ghost use Rattle.endpoint_laws.specs.Contexts.{Secrets};
ghost use Rattle.log_contexts.specs.Contexts.{AreKeyingsOf};
ghost use Rattle.log_packets.specs.Opening.{IsSealed};
ghost use Rattle.log_outs.specs.Outs.{HoldsKeyings};

use crypto_profile::Context;
use log_packets::{Opener, keyings};
use rtmfp_base::Memory;
use std::alloc::Global;

/// The session IDs of the initiators' keyings in the plain packet that is held, if it is one.
fn held_keyings(opener: &Opener, alloc: Global) -> Result<Vec<u32>, Memory>
    ensures { IfOk result (λ ids. HoldsKeyings opener.now ids.items) }
{
    match opener.reads() {
        Some(packet) => keyings(&packet, alloc),
        None => Ok(Vec::new(alloc)),
    }
}

/// The session IDs of the attempts whose keyings go out with a datagram that was sealed in this
/// context, and whose plain packet is held. In sessions none do. Where there is none it takes no
/// memory.
pub fn keyings_out(opener: &Opener, context: &Context, alloc: Global) -> Result<Vec<u32>, Memory>
    ensures { (secrets : Secrets) (sent : Sending) (number : List ℕ) →
        sent.context ≡ context.now →
        IsSealed secrets context.now sent.datagram (sid_of sent.datagram) number opener.now →
        IfOk result (λ ids. AreKeyingsOf secrets (Some sent) ids.items) }
{
    match context {
        Context::Startup { .. } => held_keyings(opener, alloc),
        Context::Session { .. } => Ok(Vec::new(alloc)),
    }
}
