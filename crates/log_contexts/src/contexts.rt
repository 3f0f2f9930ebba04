//! What a checker keeps of the session IDs of one end.

ghost use Rattle.std.specs.Prelude.{◌≡◌, ℕ, List, Some, None, OnOk, OnErr};
ghost use Rattle.std.specs.FinMap.{get};
ghost use Rattle.crypto_profile.specs.declared.keys.Context.{Context};
ghost use Rattle.glare_core.specs.declared.facts.Held.{Held};
ghost use Rattle.endpoint_model.specs.Event.{Setup, Event, open_in, seek_in};
ghost use Rattle.endpoint_model.specs.Views.{fact_in, out_in};
ghost use Rattle.endpoint_laws.specs.Past.{Past, OfEvent, datagram_in, nothing_done, opened_tag, sought_tag, with_begun, with_entry};
ghost use Rattle.endpoint_laws.specs.Contexts.{Secrets};
ghost use Rattle.log_digest.specs.Kept.{Digested};
ghost use Rattle.log_digest.specs.Changes.{MayCome};
ghost use Rattle.log_digest.specs.Digest.{IsDigestOf};
ghost use Rattle.log_contexts.specs.Kept.{generation_in, keying_at, last_in, nothing_kept, tag_at};
ghost use Rattle.log_contexts.specs.Lowest.{TellsLowest};
ghost use Rattle.log_contexts.specs.Changes.{added, begun_id, begun_in_session, begun_with, sent_in, stated, takes_if, with_session, with_start, with_threads};
ghost use Rattle.log_contexts.specs.Contexts.{AreContextsOf, AreKeyingsOf, BeginsIn, HearsThere, OpensInNone, OpensThere};

use crate::begun::Begun;
use crate::sessions::Sessions;
use crypto_profile::Context;
use endpoint_model::Entry;
use glare_core::Fact;
use log_digest::Digest;
use rtmfp_base::Memory;
use std::alloc::Global;
use std::marker::Model;

/// What a checker keeps of the session IDs of one end, which is given to it event by event and
/// entry by entry (own). Each question is one look at a map, where no two session IDs had one tag.
/// It keeps no secret: whoever gives the events and entries says what opens and reads how.
///
/// Contracts see the tags that the last call drew, the tag and the keying of what began last under
/// each session ID, and the session that began last there. It is that of a log: `new` of an empty
/// one, and `begin`, `begin_in` and `add` bring it from that of any log to that of the log with
/// what is added, where an entry may come there as far as session IDs and facts go.
#[derive(Drop)]
pub struct Contexts {
    opened: Option<[u8; 16]>,
    sought: Option<[u8; 16]>,
    threads: Begun,
    sessions: Sessions,
}

impl Model for Contexts {
    ghost use Rattle.log_contexts.specs.contracts.sessions.Session as session_type;
    ghost use Rattle.log_contexts.specs.contracts.threads.Thread as thread_type;
    ghost use Rattle.log_contexts.specs.Kept.{KeptContexts, contexts_code};

    ghost Value = { KeptContexts };

    ghost coded = { contexts_code thread_type.the_row.coded session_type.the_row.coded };

    ghost view = { λ c. record {
      opened = c.opened;
      sought = c.sought;
      threads = c.threads.table;
      sessions = c.sessions;
    } };
}

impl Contexts {
    /// That of a log without events. It takes no memory.
    pub fn new(alloc: Global) -> Contexts
        ensures value { result ≡ nothing_kept }
        ensures log { (secrets : Secrets) (setup : Setup) →
            AreContextsOf secrets setup nothing_done result }
    {
        Contexts {
            opened: None,
            sought: None,
            threads: Begun::new(alloc),
            sessions: Sessions::new(alloc),
        }
    }

    /// The tag of the attempt or the search that began last under this session ID.
    pub fn tag(&self, near: u32) -> Option<[u8; 16]>
        ensures { result ≡ tag_at near self.now.threads }
    {
        self.threads.tag(near)
    }

    /// The generation in which its keying went out last; None while it is in the hello stage.
    pub fn keying(&self, near: u32) -> Option<u64>
        ensures { result ≡ keying_at near self.now.threads }
    {
        self.threads.keying(near)
    }

    /// Whether, of the attempts and searches with this tag, none has a lower session ID than this
    /// one. Where something began under another session ID with the tag, it goes through what began
    /// under each.
    pub fn is_lowest(&self, digest: &Digest, near: u32, tag: &[u8; 16]) -> bool
        ensures { TellsLowest self.now.threads digest.now tag.now near result }
    {
        self.threads.is_lowest(digest, near, tag)
    }

    /// The generation in which the session under this session ID began.
    pub fn generation(&self, near: u32) -> Option<u64>
        ensures { result ≡ generation_in (get self.now.sessions near) }
    {
        self.sessions.generation(near)
    }

    /// When that session took the last datagram, in milliseconds; None where it took none.
    pub fn last(&self, near: u32) -> Option<u64>
        ensures { result ≡ last_in (get self.now.sessions near) }
    {
        self.sessions.last(near)
    }

    /// An event begins, whose call draws these tags: an open the first one, a seek the second, and
    /// any other call none. Its datagram, if it has one, opens in no session that stands. It takes
    /// no memory.
    pub fn begin(&mut self, opened: Option<[u8; 16]>, sought: Option<[u8; 16]>)
        ensures value { self.new ≡ begun_with opened sought self.old }
        ensures log { (secrets : Secrets) (setup : Setup) (past : Past) (moment : ℕ) (e : Event) →
            AreContextsOf secrets setup past self.old →
            opened_tag (open_in e.call) None ≡ opened → sought_tag (seek_in e.call) None ≡ sought →
            OpensInNone secrets setup past (datagram_in (OfEvent e)) →
            AreContextsOf secrets setup (with_begun moment e past) self.new }
    {
        self.opened = opened;
        self.sought = sought;
    }

    /// An event begins at this moment whose datagram opens in the session under this session ID,
    /// with this count; `fits` tells whether it is a packet of the session's mode. It answers
    /// whether the session takes it. It takes no memory.
    pub fn begin_in(&mut self, near: u32, count: u64, moment: u64, fits: bool) -> bool
        ensures takes { result ≡ takes_if count fits (get self.old.sessions near) }
        ensures value { self.new ≡ begun_in_session near count moment fits self.old }
        ensures log { (secrets : Secrets) (setup : Setup) (last : ℕ) (past : Past) (d : Digested)
            (e : Event) (thing : Held) (generation : ℕ) (datagram : List ℕ) →
            AreContextsOf secrets setup past self.old → IsDigestOf last past d →
            datagram_in (OfEvent e) ≡ Some datagram →
            OpensThere secrets setup past near thing generation datagram count fits →
            HearsThere secrets setup past moment e near thing generation datagram self.new result }
    {
        self.hear(near, count, moment, fits)
    }

    /// Notes such an event.
    fn hear(&mut self, near: u32, count: u64, moment: u64, fits: bool) -> bool
        ensures takes { result ≡ takes_if count fits (get self.old.sessions near) }
        ensures value { self.new ≡ begun_in_session near count moment fits self.old }
    {
        self.opened = None;
        self.sought = None;
        self.sessions.hear(near, count, moment, fits)
    }

    /// Notes what begins under this session ID, with the tag that was drawn for it.
    fn start(&mut self, near: u32, drawn: Option<[u8; 16]>) -> Result<(), Memory>
        ensures ok { OnOk result (self.new
            ≡ with_threads (with_start near drawn self.old.threads) self.old) }
        ensures err { OnErr result (self.new ≡ self.old) }
    {
        self.threads.start(near, drawn)
    }

    /// Notes a session that begins under this session ID.
    fn born(&mut self, near: u32, opened: Option<u64>) -> Result<(), Memory>
        ensures ok { OnOk result (self.new ≡ with_session near opened self.old) }
        ensures err { OnErr result (self.new ≡ self.old) }
    {
        match opened {
            Some(generation) => self.sessions.begin(near, generation),
            None => Ok(()),
        }
    }

    /// Notes a fact.
    fn state(&mut self, fact: &Fact, opened: Option<u64>) -> Result<(), Memory>
        ensures ok { OnOk result (self.new ≡ stated fact.now opened self.old) }
        ensures err { OnErr result (self.new ≡ self.old) }
    {
        match fact {
            Fact::Started { near, .. } => self.start(*near, self.opened),
            Fact::Born(joined) => self.born(joined.near, opened),
            Fact::Opened(joined) => self.born(joined.near, opened),
            Fact::Confirmed { .. } => Ok(()),
            Fact::Ended { .. } => Ok(()),
        }
    }

    /// Notes keyings in a datagram that goes out.
    fn send(&mut self, context: &Context, keyings: &[u32]) -> Result<(), Memory>
        ensures ok { OnOk result (self.new ≡ sent_in context.now keyings.now self.old) }
        ensures err { OnErr result (self.new ≡ self.old) }
    {
        match context {
            Context::Startup { generation } => self.threads.key(*generation, keyings),
            Context::Session { .. } => Ok(()),
        }
    }

    /// Notes an entry.
    fn note(&mut self, entry: &Entry, keyings: &[u32], opened: Option<u64>) -> Result<(), Memory>
        ensures ok { OnOk result (self.new ≡ added entry.now keyings.now opened self.old) }
        ensures err { OnErr result (self.new ≡ self.old) }
    {
        match entry {
            Entry::Fact(fact) => self.state(fact, opened),
            Entry::Sought { near, .. } => self.start(*near, self.sought),
            Entry::Out { context, .. } => self.send(context, keyings),
            _ => Ok(()),
        }
    }

    /// Adds an entry of the last event that began, in which initiators' keyings of attempts with
    /// these session IDs go out; where it begins a session, that event's datagram opened in this
    /// generation, outside of sessions. It finds memory first, and leaves all as it was where there
    /// is none.
    pub fn add(&mut self, entry: &Entry, keyings: &[u32], opened: Option<u64>) -> Result<(), Memory>
        ensures ok { OnOk result (self.new ≡ added entry.now keyings.now opened self.old) }
        ensures log { (secrets : Secrets) (setup : Setup) (own : List ℕ) (last : ℕ) (past : Past)
            (d : Digested) (moment : ℕ) →
            AreContextsOf secrets setup past self.old → IsDigestOf last past d →
            MayCome own past entry.now → AreKeyingsOf secrets (out_in entry.now) keyings.now →
            BeginsIn secrets setup past (begun_id (fact_in entry.now)) opened →
            OnOk result (AreContextsOf secrets setup (with_entry moment entry.now past) self.new) }
        ensures err { OnErr result (self.new ≡ self.old) }
    {
        match self.note(entry, keyings, opened) {
            Ok(()) => Ok(()),
            Err(Memory) => Err(Memory),
        }
    }
}
