//! All that a checker keeps of one end.

ghost use Rattle.std.specs.Prelude.{◌≡◌, ◌+◌, ◌≤◌, ◌∷◌, ℕ, List, None, Some, OnOk, cond, true};
ghost use Rattle.endpoint_model.specs.Event.{Setup, Call, Event, moment_at, open_in, own_of, receive_in, seek_in};
ghost use Rattle.endpoint_model.specs.declared.entry.Entry.{Entry};
ghost use Rattle.glare_core.specs.declared.facts.Fact.{Fact};
ghost use Rattle.endpoint_model.specs.Views.{fact_in, out_in};
ghost use Rattle.endpoint_laws.specs.Past.{Past, OfEvent, datagram_in, facts_of, last_call, nothing_done, opened_tag, sought_tag, was_gone_through, with_begun, with_entry};
ghost use Rattle.endpoint_laws.specs.Contexts.{Secrets};
ghost use Rattle.endpoint_laws.specs.Lawful.{Line, nonces_of};
ghost use Rattle.log_digest.specs.Changes.{drawn_in};
ghost use Rattle.log_digest.specs.Digest.{held_before};
ghost use Rattle.log_digest.specs.Nonces.{AreNonces};
ghost use Rattle.log_values.specs.Events.{call_of};
ghost use Rattle.log_contexts.specs.Changes.{begun_id};
ghost use Rattle.log_contexts.specs.Contexts.{AreKeyingsOf, BeginsIn, HearsThere, OpensInNone, OpensThere};
ghost use Rattle.log_arrivals.specs.Calls.{IsArrivedIn};
ghost use Rattle.log_outs.specs.Outs.{IsSenderOf};
ghost use Rattle.log_verdict.specs.Checks.{is_kept};
ghost use Rattle.log_events.specs.Watch.{HasBegun, IsWatchOf};

use endpoint_model::Entry;
use glare_core::{Fact, Held, peer_of};
use log_arrivals::{Arrived, Given, in_session_call};
use log_contexts::Contexts;
use log_digest::{Digest, Drawn, Generations, Nonces, Numbers};
use log_outs::Sender;
use log_packets::Opener;
use log_values::LoggedCall;
use rtmfp_base::Memory;
use std::alloc::Global;

/// What a checker keeps of one end, which is given to it event by event and entry by entry (own).
/// It keeps no secret.
#[derive(Drop)]
pub struct EndWatch {
    /// What the end holds.
    pub digest: Digest,
    /// The generations that it is in and knows.
    pub generations: Generations,
    /// The numbers that it used.
    pub numbers: Numbers,
    /// The nonces that it stated.
    pub nonces: Nonces,
    /// The generations and tags of its session IDs.
    pub contexts: Contexts,
    /// With how many peers the end keeps a session.
    pub kept: u64,
}

/// What a call draws for a search, where it is a seek.
fn drawn_by(call: &LoggedCall, nonce: &[u8; 16]) -> Option<Drawn>
    ensures { result ≡ drawn_in (seek_in (call_of nonce.now call.now)) }
{
    match call {
        LoggedCall::Seek { tag, .. } => Some(Drawn {
            tag: *tag,
            ni: *nonce,
        }),
        _ => None,
    }
}

/// The tag that a call draws, where it is an open.
fn opened_by(call: &LoggedCall) -> Option<[u8; 16]>
    ensures { (nonce : List ℕ) → result ≡ opened_tag (open_in (call_of nonce call.now)) None }
{
    match call {
        LoggedCall::Open { tag, .. } => Some(*tag),
        _ => None,
    }
}

/// The tag that it draws, where it is a seek.
fn sought_by(call: &LoggedCall) -> Option<[u8; 16]>
    ensures { (nonce : List ℕ) → result ≡ sought_tag (seek_in (call_of nonce call.now)) None }
{
    match call {
        LoggedCall::Seek { tag, .. } => Some(*tag),
        _ => None,
    }
}

/// Adds the nonce that a fact states, if it states one.
fn state(nonces: &mut Nonces, fact: &Fact) -> Result<(), Memory>
    ensures { (facts : List Fact) → AreNonces (nonces_of facts) nonces.old →
        OnOk result (AreNonces (nonces_of (fact.now ∷ facts)) nonces.new) }
{
    match fact {
        Fact::Started { ni, .. } => nonces.add(ni),
        Fact::Born(joined) => nonces.add(&joined.nr),
        _ => Ok(()),
    }
}

/// The same of an entry.
fn state_in(nonces: &mut Nonces, entry: &Entry) -> Result<(), Memory>
    ensures { (moment : ℕ) (past : Past) → AreNonces (nonces_of (facts_of past)) nonces.old →
        OnOk result (AreNonces (nonces_of (facts_of (with_entry moment entry.now past)))
        nonces.new) }
{
    match entry {
        Entry::Fact(fact) => state(nonces, fact),
        _ => Ok(()),
    }
}

/// Whether a session is kept.
fn is_kept(thing: Option<Held>) -> bool
    ensures { result ≡ is_kept thing }
{
    matches!(
        &thing,
        Some(Held::KeptAsResponder(_) | Held::KeptAsInitiator(_))
    )
}

/// Whether a session is kept with the peer of an entry, if it is a fact.
fn keeps(digest: &Digest, entry: &Entry) -> bool
    ensures { result ≡ is_kept (held_before (fact_in entry.now) digest.now.roll) }
{
    match entry {
        Entry::Fact(fact) => is_kept(digest.held(&peer_of(fact))),
        _ => false,
    }
}

/// With how many of so many peers a session is kept, by with how many it was, where of one of them
/// is known whether it was before and whether it is after.
fn kept_after(kept: u64, before: bool, after: bool, peers: usize) -> u64
    ensures { (next : ℕ) → next + cond before 1 0 ≡ kept + cond after 1 0 → next ≤ peers →
        result ≡ next }
{
    if before && !after {
        kept.saturating_sub(1)
    } else if after && !before && kept < peers as u64 {
        kept + 1
    } else {
        kept
    }
}

impl EndWatch {
    /// That of an end without events that begins in this generation. It takes no memory.
    pub fn new(first: u64, alloc: Global) -> EndWatch
        ensures { (secrets : Secrets) (setup : Setup) → setup.generation ≡ first →
            IsWatchOf secrets setup 0 nothing_done result }
    {
        EndWatch {
            digest: Digest::new(alloc),
            generations: Generations::new(first),
            numbers: Numbers::new(alloc),
            nonces: Nonces::new(alloc),
            contexts: Contexts::new(alloc),
            kept: 0,
        }
    }

    /// An event begins at this moment, in milliseconds, whose call drew this nonce. Its datagram,
    /// if it has one, opens in no session that stands. It takes no memory.
    pub fn begin(&mut self, call: &LoggedCall, nonce: &[u8; 16], moment: u64)
        ensures { (secrets : Secrets) (setup : Setup) (last : ℕ) (past : Past) (e : Event) →
            IsWatchOf secrets setup last past self.old → e.call ≡ call_of nonce.now call.now →
            e.moment ≡ moment → OpensInNone secrets setup past (datagram_in (OfEvent e)) →
            IsWatchOf secrets setup (moment_at last e) (with_begun (moment_at last e) e past)
            self.new }
    {
        let drawn = drawn_by(call, nonce);
        let opened = opened_by(call);
        let sought = sought_by(call);
        self.digest.begin(moment, drawn);
        self.contexts.begin(opened, sought);
    }

    /// An event begins at this moment, in milliseconds, whose datagram is given so to a session. It
    /// answers whether the session takes it. It takes no memory.
    pub fn begin_in(&mut self, given: &Given, moment: u64) -> bool
        ensures log { (secrets : Secrets) (setup : Setup) (last : ℕ) (past : Past) (e : Event)
            (datagram : List ℕ) → IsWatchOf secrets setup last past self.old →
            e.moment ≡ moment → datagram_in (OfEvent e) ≡ Some datagram →
            OpensThere secrets setup past given.now.near given.now.thing given.now.generation
            datagram given.now.count given.now.fits →
            IsWatchOf secrets setup (moment_at last e) (with_begun (moment_at last e) e past)
            self.new }
        ensures hears { (secrets : Secrets) (setup : Setup) (last : ℕ) (past : Past) (e : Event)
            (datagram : List ℕ) → IsWatchOf secrets setup last past self.old →
            e.moment ≡ moment → datagram_in (OfEvent e) ≡ Some datagram →
            OpensThere secrets setup past given.now.near given.now.thing given.now.generation
            datagram given.now.count given.now.fits →
            HearsThere secrets setup past (moment_at last e) e given.now.near given.now.thing
            given.now.generation datagram self.new.contexts result }
    {
        self.digest.begin(moment, None);
        let now = self.digest.moment();
        self.contexts
            .begin_in(given.near, given.count, now, given.fits)
    }

    /// An event begins at this moment, in milliseconds, whose call drew this nonce, and of whose
    /// datagram this is found, by what is kept; its plain packet is held where it opens. It answers
    /// whether the session under the datagram's session ID takes it; false where the call is given
    /// none, or one that opens in no session. It takes no memory.
    pub fn begin_call(
        &mut self,
        arrived: &Arrived,
        opener: &Opener,
        call: &LoggedCall,
        nonce: &[u8; 16],
        moment: u64,
    ) -> bool
        ensures { (secrets : Secrets) (setup : Setup) (last : ℕ) (past : Past) (e : Event) →
            IsWatchOf secrets setup last past self.old → e.call ≡ call_of nonce.now call.now →
            e.moment ≡ moment → was_gone_through e.answer ≡ true →
            IsArrivedIn secrets setup past (receive_in (call_of nonce.now call.now)) opener.now
            arrived.now → HasBegun secrets setup (moment_at last e) e past self.new result }
    {
        match in_session_call(arrived, opener, call) {
            Some(given) => self.begin_in(&given, moment),
            None => {
                self.begin(call, nonce, moment);
                false
            }
        }
    }

    /// The end with this certificate, whose fingerprint is the second one, as one that sends.
    pub fn sender<'a>(&'a self, cert: &'a [u8], own: &'a [u8; 32]) -> Sender<'a>
        ensures { (secrets : Secrets) (setup : Setup) (last : ℕ) (past : Past) →
            IsWatchOf secrets setup last past self.now → setup.cert ≡ cert.now →
            own_of setup ≡ own.now → IsSenderOf secrets setup past result }
    {
        Sender {
            cert,
            own,
            digest: &self.digest,
            contexts: &self.contexts,
            numbers: &self.numbers,
            nonces: &self.nonces,
        }
    }

    /// Adds an entry of the last event that began, which meets its line of the table of lawful
    /// logs. Initiators' keyings of attempts with these session IDs go out with it; where it begins
    /// a session, the event's datagram opened in this generation, outside of sessions. Where there
    /// is no memory what is kept is that of no log any more.
    pub fn add(&mut self, entry: &Entry, keyings: &[u32], opened: Option<u64>) -> Result<(), Memory>
        ensures { (secrets : Secrets) (setup : Setup) (last : ℕ) (call : Call) (past : Past)
            (rest : List Entry) → IsWatchOf secrets setup last past self.old →
            last_call past ≡ Some call → Line secrets setup last call past rest entry.now →
            AreKeyingsOf secrets (out_in entry.now) keyings.now →
            BeginsIn secrets setup past (begun_id (fact_in entry.now)) opened →
            OnOk result
            (IsWatchOf secrets setup last (with_entry last entry.now past) self.new) }
    {
        let before = keeps(&self.digest, entry);
        let Ok(()) = self.digest.add(entry) else {
            return Err(Memory);
        };
        let Ok(()) = self.numbers.add(entry) else {
            return Err(Memory);
        };
        let Ok(()) = state_in(&mut self.nonces, entry) else {
            return Err(Memory);
        };
        let Ok(()) = self.contexts.add(entry, keyings, opened) else {
            return Err(Memory);
        };
        self.generations.add(entry);
        let after = keeps(&self.digest, entry);
        self.kept = kept_after(self.kept, before, after, self.digest.peers());
        Ok(())
    }
}
