//! What the facts of an end leave, fact by fact.

ghost use Rattle.std.specs.Prelude.{◌≡◌, ◌∷◌, ℕ, List, [], true, OnOk, OnErr, IsOk};
ghost use Rattle.std.specs.Option.{option_copied};
ghost use Rattle.std.specs.FinMap.{contains_key, len};
ghost use Rattle.glare_core.specs.declared.facts.Fact.{Fact};
ghost use Rattle.glare_core.specs.Standing.{peer_of, count};
ghost use Rattle.glare_core.specs.Stands.{Stands};
ghost use Rattle.glare_core.specs.Ledger.{row_in, row_after};
ghost use Rattle.fact_digest.specs.Roll.{no_facts, started_after, with_fact, IsOfFacts};

use glare_core::{Fact, Held, held_after, number_in, peer_of};
use rtmfp_base::Memory;
use std::alloc::Global;
use std::collections::HashMap;
use std::marker::Model;

/// What is held with a peer, and the greatest number seen of it.
#[derive(Clone, Copy)]
struct Row {
    held: Option<Held>,
    seen: u64,
}

impl Model for Row {
    ghost use Rattle.glare_core.specs.Ledger.{PeerRow, row_code};
    ghost use Rattle.glare_core.specs.contracts.facts.Held as held_type;

    ghost Value = { PeerRow };

    ghost coded = { row_code held_type.the_row.coded };

    ghost view = { λ row. record { held = row.held; floor = row.seen } };

    ghost inverse = { λ row. record { held = row.held; seen = row.floor } };
}

/// What the facts of an end say of its peers and of its attempts. A question takes constant time on
/// average, however many peers there are (own).
///
/// Contracts see the count of attempts, and a finite map from peers to what is held and to the
/// greatest number seen.
#[derive(Drop)]
pub struct Roll {
    started: u64,
    rows: HashMap<[u8; 32], Row>,
}

impl Model for Roll {
    ghost use Rattle.std.specs.FinMap.{from_entries};
    ghost use Rattle.glare_core.specs.contracts.facts.Held as held_type;
    ghost use Rattle.fact_digest.specs.Roll.{Rolled, rolled_code};

    ghost Value = { Rolled };

    ghost coded = { rolled_code held_type.the_row.coded };

    ghost view = { λ r. record { started = r.started; rows = from_entries r.rows.entries } };
}

/// What a fact leaves of the row of its peer.
fn row_after(fact: &Fact, before: Row) -> Row
    ensures { result ≡ row_after fact.now before }
{
    Row {
        held: held_after(fact, before.held),
        seen: number_in(fact).max(before.seen),
    }
}

/// How many attempts were started, after a fact.
fn started_after(fact: &Fact, before: u64) -> u64
    ensures { result ≡ started_after fact.now before }
{
    match fact {
        Fact::Started { n, .. } => *n,
        _ => before,
    }
}

impl Roll {
    /// What no facts leave. It takes no memory.
    pub fn new(alloc: Global) -> Roll
        ensures value { result ≡ no_facts }
        ensures facts { IsOfFacts [] result }
    {
        Roll {
            started: 0,
            rows: HashMap::new(alloc),
        }
    }

    /// The row of a peer, a blank one where it has none.
    fn row(&self, peer: &[u8; 32]) -> Row
        ensures { result ≡ row_in self.now.rows peer.now }
    {
        match self.rows.get(peer) {
            Some(row) => *row,
            None => Row {
                held: None,
                seen: 0,
            },
        }
    }

    /// What is held with a peer.
    pub fn held(&self, peer: &[u8; 32]) -> Option<Held>
        ensures { result ≡ (row_in self.now.rows peer.now).held }
    {
        self.row(peer).held
    }

    /// The greatest number seen of a peer, 0 at first.
    pub fn seen(&self, peer: &[u8; 32]) -> u64
        ensures { result ≡ (row_in self.now.rows peer.now).floor }
    {
        self.row(peer).seen
    }

    /// Whether an attempt with a peer was started, or a session with it born.
    pub fn knows(&self, peer: &[u8; 32]) -> bool
        ensures { result ≡ contains_key self.now.rows peer.now }
    {
        self.rows.contains_key(peer)
    }

    /// How many such peers there are.
    pub fn peers(&self) -> usize
        ensures { result ≡ len self.now.rows }
    {
        self.rows.len()
    }

    /// How many attempts were started.
    pub fn started(&self) -> u64
        ensures { result ≡ self.now.started }
    {
        self.started
    }

    /// Adds a fact. It takes memory only for a peer that it doesn't know. It says what the facts said
    /// and this one, where it is one that may come after them.
    pub fn add(&mut self, fact: &Fact) -> Result<(), Memory>
        ensures ok { OnOk result (self.new ≡ with_fact fact.now self.old) }
        ensures facts { (own : List ℕ) (facts : List Fact) → IsOfFacts facts self.old →
            Stands own (count facts) facts fact.now →
            OnOk result (IsOfFacts (fact.now ∷ facts) self.new) }
        ensures err { OnErr result (self.new ≡ self.old) }
        ensures takes_none { contains_key self.old.rows (peer_of fact.now) ≡ true → IsOk result }
    {
        let peer = peer_of(fact);
        let row = row_after(fact, self.row(&peer));
        match self.rows.insert(peer, row) {
            Ok(_) => {
                self.started = started_after(fact, self.started);
                Ok(())
            }
            Err(_) => Err(Memory),
        }
    }
}
