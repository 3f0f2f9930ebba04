//! Whether what an end is given was sent.

ghost use Rattle.std.specs.Prelude.{◌≡◌, ℕ, List, Some};
ghost use Rattle.endpoint_model.specs.Event.{Setup, ReceiveCall};
ghost use Rattle.endpoint_laws.specs.Past.{Past};
ghost use Rattle.endpoint_laws.specs.Contexts.{Secrets};
ghost use Rattle.endpoint_laws.specs.History.{History, IsHonestReceive};
ghost use Rattle.log_packets.specs.Asked.{Tells};
ghost use Rattle.log_sent.specs.Sent.{IsSentOf};
ghost use Rattle.log_arrivals.specs.Arrived.{IsArrived};

use crate::arrived::Arrived;
use log_sent::Sent;

/// Whether a datagram that an end is given opens nowhere, or was sent before in the context in
/// which it opens, by whichever end (own).
pub fn is_honest(arrived: &Arrived, sent: &Sent<'_>, datagram: &[u8]) -> bool
    ensures { (secrets : Secrets) (setup : Setup) (past : Past) (plain : List ℕ)
        (earlier : History) (r : ReceiveCall) → r.datagram ≡ datagram.now →
        IsArrived secrets setup past datagram.now plain arrived.now →
        IsSentOf earlier sent.now →
        Tells (IsHonestReceive secrets setup past earlier (Some r)) result }
{
    match &arrived.context {
        Some(context) => sent.has(datagram, context),
        None => true,
    }
}
