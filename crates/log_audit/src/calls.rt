//! The sizes of what calls are given. The functions do nothing: they tell what the types say.

ghost use Rattle.std.specs.Prelude.{◌≡◌, length};
ghost use Rattle.identity.specs.ServiceNames.{IsServiceName};
ghost use Rattle.endpoint_laws.specs.Laws.{AreBytes, IsCall};
ghost use Rattle.log_values.specs.Events.{event_of};

use identity::ServiceName;
use log_values::{Logged, LoggedCall};

fn are_bytes(bytes: &[u8])
    ensures { AreBytes bytes.now }
{}

fn are_sixteen(bytes: &[u8; 16])
    ensures { length bytes.now ≡ 16 }
{}

fn are_thirty_two(bytes: &[u8; 32])
    ensures { length bytes.now ≡ 32 }
{}

fn is_service_name(name: &ServiceName)
    ensures { IsServiceName name.now }
{
    let _bytes = name.bytes();
}

/// A call was given what calls are given.
pub(crate) fn is_call(event: &Logged)
    ensures { IsCall (event_of event.now).call }
{
    are_sixteen(&event.nonce);
    match &event.call {
        LoggedCall::Open { peer, tag } => {
            are_thirty_two(peer);
            are_sixteen(tag);
        }
        LoggedCall::Seek { name, tag } => {
            is_service_name(name);
            are_sixteen(tag);
        }
        LoggedCall::Learn { secret } => are_thirty_two(secret),
        LoggedCall::Receive { datagram, .. } => are_bytes(datagram.bytes()),
        LoggedCall::Cancel { .. }
        | LoggedCall::Unseek { .. }
        | LoggedCall::Close { .. }
        | LoggedCall::Advance
        | LoggedCall::Tick
        | LoggedCall::Other => {}
    }
}
