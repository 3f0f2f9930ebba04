//! The nonces that entries state.

ghost use Rattle.std.specs.Prelude.{◌≡◌, ◌∷◌, ◌++◌, ℕ, List, [], OnOk, OnErr, true};
ghost use Rattle.endpoint_laws.specs.Past.{Past, facts_of, with_entry};
ghost use Rattle.endpoint_laws.specs.Lawful.{nonces_of};
ghost use Rattle.log_digest.specs.Nonces.{AreNonces};
ghost use Rattle.log_sent.specs.Nonces.{AreNew, listed, stated_at};

use endpoint_model::Entry;
use glare_core::Fact;
use log_digest::Nonces;
use rtmfp_base::Memory;

/// The nonce that a fact states.
fn nonce_of(fact: &Fact) -> Option<[u8; 16]>
    ensures { listed result ≡ nonces_of (fact.now ∷ []) }
{
    match fact {
        Fact::Started { ni, .. } => Some(*ni),
        Fact::Born(joined) => Some(joined.nr),
        Fact::Opened(_) => None,
        Fact::Confirmed { .. } => None,
        Fact::Ended { .. } => None,
    }
}

/// The nonce that an entry states, of an attempt that is started or a session that is born; None
/// exactly where it states none (own).
pub fn nonce_in(entry: &Entry) -> Option<[u8; 16]>
    ensures { listed result ≡ stated_at entry.now }
{
    let Entry::Fact(fact) = entry else {
        return None;
    };
    nonce_of(fact)
}

/// Whether a nonce, if there is one, is new beside these.
fn is_new(nonces: &Nonces, nonce: Option<[u8; 16]>) -> bool
    ensures yes { (before : List (List ℕ)) → AreNonces before nonces.now → result ≡ true →
        AreNew (listed nonce) before }
    ensures no { (before : List (List ℕ)) → AreNonces before nonces.now →
        AreNew (listed nonce) before → result ≡ true }
{
    match nonce {
        Some(nonce) => !nonces.has(&nonce),
        None => true,
    }
}

/// Whether an entry states no nonce that is among those that were stated before (own).
pub fn states_new(nonces: &Nonces, entry: &Entry) -> bool
    ensures yes { (before : List (List ℕ)) → AreNonces before nonces.now → result ≡ true →
        AreNew (stated_at entry.now) before }
    ensures no { (before : List (List ℕ)) → AreNonces before nonces.now →
        AreNew (stated_at entry.now) before → result ≡ true }
{
    is_new(nonces, nonce_in(entry))
}

/// Adds a nonce, if there is one.
fn add_some(nonces: &mut Nonces, nonce: Option<[u8; 16]>) -> Result<(), Memory>
    ensures stated { (before : List (List ℕ)) → AreNonces before nonces.old →
        OnOk result (AreNonces (listed nonce ++ before) nonces.new) }
    ensures err { OnErr result (nonces.new ≡ nonces.old) }
{
    match nonce {
        Some(nonce) => match nonces.add(&nonce) {
            Ok(()) => Ok(()),
            Err(Memory) => Err(Memory),
        },
        None => Ok(()),
    }
}

/// Adds the nonce that an entry states, if it states one, to those that were stated before: by its
/// end, or by all ends (own). It leaves them as they were where no memory is found.
pub fn add_nonce(nonces: &mut Nonces, entry: &Entry) -> Result<(), Memory>
    ensures stated { (before : List (List ℕ)) → AreNonces before nonces.old →
        OnOk result (AreNonces (stated_at entry.now ++ before) nonces.new) }
    ensures log { (moment : ℕ) (past : Past) → AreNonces (nonces_of (facts_of past)) nonces.old →
        OnOk result (AreNonces (nonces_of (facts_of (with_entry moment entry.now past)))
        nonces.new) }
    ensures err { OnErr result (nonces.new ≡ nonces.old) }
{
    match add_some(nonces, nonce_in(entry)) {
        Ok(()) => Ok(()),
        Err(Memory) => Err(Memory),
    }
}
