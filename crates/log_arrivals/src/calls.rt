//! The same of the datagram of a call, if it is given one.

ghost use Rattle.std.specs.Prelude.{◌≡◌, ℕ, List, None, false, IfOk, OnErr, IfSome, IfNone};
ghost use Rattle.std.specs.Option.{option_copied};
ghost use Rattle.endpoint_model.specs.Event.{Setup, own_of, receive_in};
ghost use Rattle.endpoint_laws.specs.Past.{Past, datagram_of, is_in_use};
ghost use Rattle.endpoint_laws.specs.Contexts.{Secrets};
ghost use Rattle.endpoint_laws.specs.History.{History, IsHonestCall};
ghost use Rattle.log_digest.specs.Digest.{IsDigestOf};
ghost use Rattle.log_digest.specs.Generations.{AreGenerationsOf};
ghost use Rattle.log_values.specs.Events.{call_of};
ghost use Rattle.log_packets.specs.Asked.{Tells};
ghost use Rattle.log_contexts.specs.Contexts.{AreContextsOf, OpensInNone};
ghost use Rattle.log_sent.specs.Sent.{IsSentOf};
ghost use Rattle.log_arrivals.specs.Calls.{IsArrivedIn, IsGivenIn, given_in, nowhere};

use crate::arrival::Arrival;
use crate::arrived::{Arrived, arrive};
use crate::given::{Given, in_session};
use crate::honest::is_honest;
use log_contexts::{Contexts, Taking};
use log_digest::{Digest, Generations};
use log_packets::{Opener, SecretMap};
use log_sent::Sent;
use log_values::LoggedCall;
use rtmfp_base::Memory;

/// The datagram that a call is given; None where it is given none.
fn datagram_of(call: &LoggedCall) -> Option<&[u8]>
    ensures { option_copied result ≡ given_in call.now }
{
    match call {
        LoggedCall::Receive { datagram, .. } => Some(datagram.bytes()),
        _ => None,
    }
}

/// What is found where no datagram is given.
fn nowhere() -> Arrived
    ensures { result ≡ nowhere }
{
    Arrived {
        arrival: Arrival::Nowhere,
        context: None,
        taking: Taking::Nothing,
    }
}

/// Opens the datagram of a call of an end with this fingerprint, as `arrive` does. A call that is
/// given none opens nothing.
pub fn arrive_call(
    secrets: &SecretMap,
    own: &[u8; 32],
    generations: &Generations,
    digest: &Digest,
    contexts: &Contexts,
    opener: &mut Opener,
    call: &LoggedCall,
) -> Result<Arrived, Memory>
    ensures log { (setup : Setup) (last : ℕ) (past : Past) (nonce : List ℕ) →
        own_of setup ≡ own.now → IsDigestOf last past digest.now →
        AreGenerationsOf setup past generations.now →
        AreContextsOf secrets.now setup past contexts.now → is_in_use 0 past ≡ false →
        IfOk result (IsArrivedIn secrets.now setup past (receive_in (call_of nonce call.now))
        opener.new) }
    ensures same { IfOk result (λ arrived. arrived.context ≡ None → opener.new ≡ opener.old) }
    ensures err { OnErr result (opener.new ≡ opener.old) }
{
    match datagram_of(call) {
        Some(datagram) => arrive(
            secrets,
            own,
            generations,
            digest,
            contexts,
            opener,
            datagram,
        ),
        None => Ok(nowhere()),
    }
}

/// Whether a call is given no datagram, or one that opens nowhere, or one that was sent before in
/// the context in which it opens, by whichever end (own).
pub fn is_honest_call(arrived: &Arrived, sent: &Sent<'_>, call: &LoggedCall) -> bool
    ensures { (secrets : Secrets) (setup : Setup) (past : Past) (plain : List ℕ)
        (earlier : History) (nonce : List ℕ) →
        IsArrivedIn secrets setup past (receive_in (call_of nonce call.now)) plain arrived.now →
        IsSentOf earlier sent.now →
        Tells (IsHonestCall secrets setup past earlier (call_of nonce call.now)) result }
{
    match datagram_of(call) {
        Some(datagram) => is_honest(arrived, sent, datagram),
        None => true,
    }
}

/// What the session is given in which the datagram of a call opens, whose plain packet is held;
/// None exactly where the call is given none, or one that opens in no session.
pub fn in_session_call(arrived: &Arrived, opener: &Opener, call: &LoggedCall) -> Option<Given>
    ensures some { (secrets : Secrets) (setup : Setup) (past : Past) (nonce : List ℕ) →
        IsArrivedIn secrets setup past (receive_in (call_of nonce call.now)) opener.now
        arrived.now →
        IfSome result (IsGivenIn secrets setup past (receive_in (call_of nonce call.now))) }
    ensures none { (secrets : Secrets) (setup : Setup) (past : Past) (nonce : List ℕ) →
        IsArrivedIn secrets setup past (receive_in (call_of nonce call.now)) opener.now
        arrived.now →
        IfNone result (OpensInNone secrets setup past
        (datagram_of (receive_in (call_of nonce call.now)))) }
{
    match datagram_of(call) {
        Some(datagram) => in_session(arrived, opener, datagram),
        None => None,
    }
}
