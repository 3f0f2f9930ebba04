//! What holds of every receiver, whatever calls led to it.

ghost use Rattle.flow_exchange.specs.Receivers.{IsOfItsCalls};

use flow_recv::FlowReceiver;

/// Whatever calls led to it, a receiver stands for the chunks that it took and the messages that it
/// handed over: its spans are just the numbers that were taken or given up, and its runs have just
/// the bytes that were taken. These tell which message is next, in either order, which bytes are
/// held, the number at or below which none is missing, and each refusal but want of memory. It does
/// nothing.
pub fn goes_by_its_calls(receiver: &FlowReceiver)
    ensures { IsOfItsCalls receiver.now }
{
    receiver.comes_of_its_calls();
}
