//! What is asked of the datagram of an event.

ghost use Rattle.std.specs.Prelude.{◌≡◌, ℕ, List};
ghost use Rattle.endpoint_model.specs.Event.{receive_in};
ghost use Rattle.log_values.specs.Events.{call_of};
ghost use Rattle.log_packets.specs.Opening.{is_sid};
ghost use Rattle.log_facts.specs.Coming.{is_in_session, sid_under, startup_at};

use log_arrivals::Arrival;
use log_packets::sid_of;
use log_values::LoggedCall;

/// The session ID of the datagram that a call is given.
fn sid_under(call: &LoggedCall) -> Option<u32>
    ensures { (nonce : List ℕ) → result ≡ sid_under (receive_in (call_of nonce call.now)) }
{
    match call {
        LoggedCall::Receive { datagram, .. } => sid_of(datagram.bytes()),
        _ => None,
    }
}

/// Whether the call is given a datagram that goes under this session ID.
pub(crate) fn goes_under(call: &LoggedCall, sid: u32) -> bool
    ensures { (nonce : List ℕ) →
        result ≡ is_sid (sid_under (receive_in (call_of nonce call.now))) sid }
{
    match sid_under(call) {
        Some(id) => id == sid,
        None => false,
    }
}

/// The generation of the startup context in which a datagram opens.
pub(crate) fn startup_at(arrival: Arrival) -> Option<u64>
    ensures { result ≡ startup_at arrival }
{
    match arrival {
        Arrival::Startup { generation } => Some(generation),
        _ => None,
    }
}

/// Whether a datagram opens in a session.
pub(crate) fn is_in_session(arrival: Arrival) -> bool
    ensures { result ≡ is_in_session arrival }
{
    match arrival {
        Arrival::Session => true,
        _ => false,
    }
}
