//! The numbers of datagrams that go out.

ghost use Rattle.std.specs.Prelude.{◌≡◌};
ghost use Rattle.log_digest.specs.Numbers.{number_in};
ghost use Rattle.log_outs.specs.Numbers.{is_new};

use crate::sender::Sender;
use crypto_profile::Context;

/// The number of the packet in a datagram; None where it is shorter than one.
pub(crate) fn number_in(datagram: &[u8]) -> Option<[u8; 16]>
    ensures { result ≡ number_in datagram.now }
{
    if datagram.len() < 36 {
        return None;
    }
    let mut number = [0; 16];
    number.copy_from_slice(&datagram[20..36]);
    Some(number)
}

/// Whether a packet that goes out in this context may have this number: none had it there before.
/// In a session that is asked only while the nonces of the end are all different.
pub(crate) fn is_new(sender: &Sender<'_>, context: &Context, number: &[u8; 16]) -> bool
    ensures { result ≡ is_new sender.now.numbers.now sender.now.nonces.now context.now number.now }
{
    match context {
        Context::Startup { .. } => !sender.numbers.has(context, number),
        Context::Session { .. } => {
            !(sender.nonces.different() && sender.numbers.has(context, number))
        }
    }
}
