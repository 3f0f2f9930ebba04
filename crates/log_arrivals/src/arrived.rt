//! What is found of a datagram that an end is given.

ghost use Rattle.std.specs.Prelude.{◌≡◌, ℕ, None, false, IfOk, OnErr};
ghost use Rattle.endpoint_model.specs.Event.{Setup, own_of};
ghost use Rattle.endpoint_laws.specs.Past.{Past, is_in_use};
ghost use Rattle.log_digest.specs.Digest.{IsDigestOf};
ghost use Rattle.log_digest.specs.Generations.{AreGenerationsOf};
ghost use Rattle.log_contexts.specs.Contexts.{AreContextsOf};
ghost use Rattle.log_arrivals.specs.Arrived.{IsArrived};

use crate::arrival::Arrival;
use crate::contexts::{arrival_of, open_in};
use crypto_profile::Context;
use log_contexts::{Contexts, Taking};
use log_digest::{Digest, Generations};
use log_packets::{Opener, SecretMap, sid_of};
use rtmfp_base::Memory;

/// What is found of a datagram that an end is given (own).
#[derive(Clone, Copy)]
pub struct Arrived {
    /// Where it opens.
    pub arrival: Arrival,
    /// In which context; None exactly where it opens nowhere.
    pub context: Option<Context>,
    /// How the end takes datagrams under its session ID; it takes none of fewer than 36 bytes.
    pub taking: Taking,
}

/// Opens a datagram that an end with this fingerprint is given, by what is kept of the end, and
/// tells what is found of it. Where it opens its plain packet is held then, else the one before.
/// One of fewer than 36 bytes opens nowhere. The keys of a session are derived anew.
pub fn arrive(
    secrets: &SecretMap,
    own: &[u8; 32],
    generations: &Generations,
    digest: &Digest,
    contexts: &Contexts,
    opener: &mut Opener,
    datagram: &[u8],
) -> Result<Arrived, Memory>
    ensures log { (setup : Setup) (last : ℕ) (past : Past) → own_of setup ≡ own.now →
        IsDigestOf last past digest.now → AreGenerationsOf setup past generations.now →
        AreContextsOf secrets.now setup past contexts.now → is_in_use 0 past ≡ false →
        IfOk result (λ arrived.
        IsArrived secrets.now setup past datagram.now opener.new arrived) }
    ensures same { IfOk result (λ arrived. arrived.context ≡ None → opener.new ≡ opener.old) }
    ensures err { OnErr result (opener.new ≡ opener.old) }
{
    let Some(sid) = sid_of(datagram) else {
        return Ok(Arrived {
            arrival: Arrival::Nowhere,
            context: None,
            taking: Taking::Nothing,
        });
    };
    let taking = Taking::of(sid, generations, digest, contexts);
    match open_in(secrets, own, &taking, opener, sid, datagram) {
        Ok(context) => Ok(Arrived {
            arrival: arrival_of(&context),
            context,
            taking,
        }),
        Err(Memory) => Err(Memory),
    }
}
