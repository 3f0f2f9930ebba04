//! What a checker keeps of the log of one end.

ghost use Rattle.std.specs.Prelude.{◌≡◌, ◌<◌, ℕ, List, [], OnOk, OnErr, if◌then◌else◌};
ghost use Rattle.std.specs.FinMap.{contains_key, get, len};
ghost use Rattle.glare_core.specs.Standing.{peer_of};
ghost use Rattle.glare_core.specs.Ledger.{row_in};
ghost use Rattle.endpoint_model.specs.Event.{Event, moment_at, seek_in};
ghost use Rattle.endpoint_laws.specs.Past.{Past, is_close, nothing_done, with_begun, with_entry};
ghost use Rattle.log_digest.specs.declared.spot.Change.TheVariants.{Takes};
ghost use Rattle.log_digest.specs.Changes.{MayCome, closing_change, drawn_in, fact_change, sought_change};
ghost use Rattle.log_digest.specs.Kept.{nothing_kept};
ghost use Rattle.log_digest.specs.Digest.{IsDigestOf, added, begun_with, entry_change};

use crate::spot::{Change, Drawn, Spot};
use crate::spots::Spots;
use endpoint_model::Entry;
use fact_digest::Roll;
use glare_core::{Fact, Held, Why};
use identity::ServiceName;
use rtmfp_base::Memory;
use std::alloc::Global;
use std::marker::Model;

/// What a checker keeps of the log of one end, which is given to it event by event and entry by
/// entry (own). Each question is one look at a map, or none.
///
/// Contracts see the largest moment, what the last event drew for a search, what the facts say, and
/// what stands under each session ID. A digest is that of a log: `new` is that of an empty one, and
/// `begin` and `add` bring it from that of any log to that of the log with what is added, where an
/// entry may come there as far as session IDs and facts go.
#[derive(Drop)]
pub struct Digest {
    moment: u64,
    drawn: Option<Drawn>,
    roll: Roll,
    spots: Spots,
}

impl Model for Digest {
    ghost use Rattle.glare_core.specs.contracts.facts.Held as held_type;
    ghost use Rattle.log_digest.specs.contracts.spot.Drawn as drawn_type;
    ghost use Rattle.log_digest.specs.contracts.spot.Spot as spot_type;
    ghost use Rattle.log_digest.specs.Kept.{Digested, digested_code};

    ghost Value = { Digested };

    ghost coded = { digested_code drawn_type.the_row.coded held_type.the_row.coded
        spot_type.the_row.coded };

    ghost view = { λ d. record {
      moment = d.moment;
      drawn = d.drawn;
      roll = d.roll;
      spots = d.spots.table;
    } };
}

/// The peer that a fact speaks of.
fn fact_peer(fact: &Fact) -> [u8; 32]
    ensures { result ≡ peer_of fact.now }
{
    match fact {
        Fact::Started { peer, .. } | Fact::Confirmed { peer, .. } | Fact::Ended { peer, .. } =>
            *peer,
        Fact::Born(joined) | Fact::Opened(joined) => joined.peer,
    }
}

/// What a fact changes, where this was held with its peer.
fn fact_change(now: u64, before: Option<Held>, fact: &Fact) -> Change
    ensures { result ≡ fact_change now before fact.now }
{
    match fact {
        Fact::Started { peer, near, .. } => Change::Puts(
            *near,
            Spot::Holding {
                peer: *peer,
                at: now,
            },
        ),
        Fact::Born(joined) | Fact::Opened(joined) => Change::Puts(
            joined.near,
            Spot::Holding {
                peer: joined.peer,
                at: now,
            },
        ),
        Fact::Confirmed { .. } => Change::Stays,
        Fact::Ended { near, why, .. } => ended_change(now, before, *near, *why),
    }
}

/// What the end of a thing changes that was held.
fn ended_change(now: u64, before: Option<Held>, near: u32, why: Why) -> Change
    ensures { result ≡ (if is_close why then closing_change near now before else Takes near) }
{
    match (why, before) {
        (Why::Near | Why::Far, Some(thing)) => Change::Puts(near, Spot::Closing { thing, at: now }),
        (Why::Near | Why::Far, None) => Change::Stays,
        _ => Change::Takes(near),
    }
}

/// What a search changes that begins, by what its seek drew.
fn sought_change(now: u64, drawn: Option<Drawn>, near: u32, name: ServiceName) -> Change
    ensures { result ≡ sought_change now drawn (record { near = near; name = name }) }
{
    match drawn {
        Some(drawn) => {
            let tag = drawn.tag;
            let ni = drawn.ni;
            Change::Puts(
                near,
                Spot::Searching {
                    name,
                    tag,
                    ni,
                    at: now,
                },
            )
        }
        None => Change::Stays,
    }
}

impl Digest {
    /// That of a log without events. It takes no memory.
    pub fn new(alloc: Global) -> Digest
        ensures value { result ≡ nothing_kept }
        ensures log { IsDigestOf 0 nothing_done result }
    {
        Digest {
            moment: 0,
            drawn: None,
            roll: Roll::new(alloc),
            spots: Spots::new(alloc),
        }
    }

    /// The largest moment so far, in milliseconds.
    pub fn moment(&self) -> u64
        ensures { result ≡ self.now.moment }
    {
        self.moment
    }

    /// What is held with a peer.
    pub fn held(&self, peer: &[u8; 32]) -> Option<Held>
        ensures { result ≡ (row_in self.now.roll.rows peer.now).held }
    {
        self.roll.held(peer)
    }

    /// The greatest number seen of a peer, 0 at first.
    pub fn seen(&self, peer: &[u8; 32]) -> u64
        ensures { result ≡ (row_in self.now.roll.rows peer.now).floor }
    {
        self.roll.seen(peer)
    }

    /// Whether an attempt with a peer was started, or a session with it born.
    pub fn knows(&self, peer: &[u8; 32]) -> bool
        ensures { result ≡ contains_key self.now.roll.rows peer.now }
    {
        self.roll.knows(peer)
    }

    /// How many such peers there are.
    pub fn peers(&self) -> usize
        ensures { result ≡ len self.now.roll.rows }
    {
        self.roll.peers()
    }

    /// How many attempts were started.
    pub fn started(&self) -> u64
        ensures { result ≡ self.now.roll.started }
    {
        self.roll.started()
    }

    /// What stands under a session ID; None exactly where it isn't in use.
    pub fn spot(&self, near: u32) -> Option<Spot>
        ensures { result ≡ get self.now.spots near }
    {
        self.spots.get(near)
    }

    /// How many session IDs are in use.
    pub fn uses(&self) -> usize
        ensures { result ≡ len self.now.spots }
    {
        self.spots.len()
    }

    /// An event begins, at this moment; `drawn` is what it draws for a search, where its call is a
    /// seek. It takes no memory.
    pub fn begin(&mut self, moment: u64, drawn: Option<Drawn>)
        ensures value { self.new ≡ begun_with moment drawn self.old }
        ensures log { (last : ℕ) (past : Past) (e : Event) → IsDigestOf last past self.old →
            e.moment ≡ moment → drawn_in (seek_in e.call) ≡ drawn →
            IsDigestOf (moment_at last e) (with_begun (moment_at last e) e past) self.new }
    {
        self.moment = self.moment.max(moment);
        self.drawn = drawn;
    }

    /// What an entry changes under the session IDs.
    fn change(&self, entry: &Entry) -> Change
        ensures { result ≡ entry_change self.now entry.now }
    {
        match entry {
            Entry::Fact(fact) => {
                let before = self.held(&fact_peer(fact));
                fact_change(self.moment, before, fact)
            }
            Entry::Sought { near, name } => sought_change(self.moment, self.drawn, *near, *name),
            Entry::Closed { near } | Entry::Unsought { near, .. } => Change::Takes(*near),
            _ => Change::Stays,
        }
    }

    /// Notes an entry.
    fn note(&mut self, entry: &Entry) -> Result<(), Memory>
        ensures ok { OnOk result (self.new ≡ added entry.now self.old) }
        ensures err { OnErr result (self.new ≡ self.old) }
    {
        let change = self.change(entry);
        self.spots.reserve()?;
        if let Entry::Fact(fact) = entry {
            self.roll.add(fact)?;
        }
        self.spots.change(change);
        Ok(())
    }

    /// Adds an entry of the last event that began. It finds memory first, and leaves the digest as
    /// it was where there is none.
    pub fn add(&mut self, entry: &Entry) -> Result<(), Memory>
        ensures ok { OnOk result (self.new ≡ added entry.now self.old) }
        ensures log { (own : List ℕ) (last : ℕ) (past : Past) → IsDigestOf last past self.old →
            MayCome own past entry.now →
            OnOk result (IsDigestOf last (with_entry last entry.now past) self.new) }
        ensures err { OnErr result (self.new ≡ self.old) }
    {
        match self.note(entry) {
            Ok(()) => Ok(()),
            Err(Memory) => Err(Memory),
        }
    }
}
