//! What a call asks of its end.

ghost use Rattle.std.specs.Prelude.{◌≡◌};
ghost use Rattle.log_lines.specs.Decisions.{advances, cancels, closes, is_tick, learns, opens, seeks, unseeks};

use identity::ServiceName;
use log_values::LoggedCall;

/// Whether time goes on.
pub(crate) fn is_tick(call: &LoggedCall) -> bool
    ensures { result ≡ is_tick call.now }
{
    match call {
        LoggedCall::Tick => true,
        _ => false,
    }
}

/// Whether the next generation is learnt.
pub(crate) fn learns(call: &LoggedCall) -> bool
    ensures { result ≡ learns call.now }
{
    match call {
        LoggedCall::Learn { .. } => true,
        _ => false,
    }
}

/// Whether the next generation becomes the current one.
pub(crate) fn advances(call: &LoggedCall) -> bool
    ensures { result ≡ advances call.now }
{
    match call {
        LoggedCall::Advance => true,
        _ => false,
    }
}

/// Whether an attempt towards this peer with this nonce is opened, where the event drew `nonce`.
pub(crate) fn opens(nonce: &[u8; 16], call: &LoggedCall, peer: &[u8; 32], ni: &[u8; 16]) -> bool
    ensures { result ≡ opens nonce.now call.now peer.now ni.now }
{
    match call {
        LoggedCall::Open { peer: to, .. } => *to == *peer && *ni == *nonce,
        _ => false,
    }
}

/// Whether an end with this name is sought.
pub(crate) fn seeks(call: &LoggedCall, name: &ServiceName) -> bool
    ensures { result ≡ seeks call.now name.now }
{
    match call {
        LoggedCall::Seek { name: sought, .. } => *sought.bytes() == *name.bytes(),
        _ => false,
    }
}

/// Whether the attempt with this number is given up.
pub(crate) fn cancels(call: &LoggedCall, number: u64) -> bool
    ensures { result ≡ cancels call.now number }
{
    match call {
        LoggedCall::Cancel { n } => *n == number,
        _ => false,
    }
}

/// Whether the search under this session ID is given up.
pub(crate) fn unseeks(call: &LoggedCall, id: u32) -> bool
    ensures { result ≡ unseeks call.now id }
{
    match call {
        LoggedCall::Unseek { near } => *near == id,
        _ => false,
    }
}

/// Whether the session under this session ID is closed.
pub(crate) fn closes(call: &LoggedCall, id: u32) -> bool
    ensures { result ≡ closes call.now id }
{
    match call {
        LoggedCall::Close { near } => *near == id,
        _ => false,
    }
}
