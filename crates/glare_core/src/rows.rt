//! The rows in which an end keeps what it knows of its peers.

ghost use Rattle.std.specs.Prelude.{◌≡◌, ◌≤◌, ◌+◌, ℕ, true, false, None, IfSome, IsSome, IsOk, OnOk, OnErr};
ghost use Rattle.std.specs.Option.{option_copied};
ghost use Rattle.std.specs.FinMap.{get, contains_key, empty, len};
ghost use Rattle.glare_core.specs.Standing.{peer_of};
ghost use Rattle.glare_core.specs.Ledger.{row_in, row_or_blank, row_after, rows_after, rows_after_if};
ghost use Rattle.glare_core.specs.Rows.{IsRoom};

use crate::facts::{Fact, Held};
use crate::given::{held_after, number_in, peer_of};
use crate::print::Print;
use std::alloc::{AllocError, Global};
use std::collections::HashMap;
use std::marker::Model;

/// What is held with a peer, and the greatest number seen of it.
#[derive(Clone, Copy)]
pub(crate) struct Row {
    held: Option<Held>,
    floor: u64,
}

impl Model for Row {
    ghost use Rattle.glare_core.specs.Ledger.{PeerRow, row_code};
    ghost use Rattle.glare_core.specs.contracts.facts.Held as held_type;

    ghost Value = { PeerRow };

    ghost coded = { row_code held_type.the_row.coded };

    ghost view = { λ row. record { held = row.held; floor = row.floor } };

    ghost inverse = { λ row. record { held = row.held; floor = row.floor } };
}

/// What is known of a peer: whether it has a row, and what is in it.
#[derive(Clone, Copy)]
pub(crate) struct Seat {
    pub(crate) known: bool,
    pub(crate) held: Option<Held>,
    pub(crate) floor: u64,
}

/// The rows, each under the fingerprint of its peer, where it is found in constant time on average.
///
/// Contracts see them as a finite map.
#[derive(Drop)]
pub(crate) struct Rows {
    map: HashMap<Print, Row>,
}

impl Model for Rows {
    ghost use Rattle.std.specs.FinMap.{from_entries};
    ghost use Rattle.glare_core.specs.Ledger.{PeerRows};
    ghost use Rattle.glare_core.specs.Rows.{rows_code};
    ghost use Rattle.glare_core.specs.contracts.facts.Held as held_type;

    ghost Value = { PeerRows };

    ghost coded = { rows_code held_type.the_row.coded };

    ghost view = { λ rows. from_entries rows.map.entries };
}

/// What a fact leaves of the row of its peer.
fn row_after(fact: &Fact, before: Row) -> Row
    ensures { result ≡ row_after fact.now before }
{
    Row {
        held: held_after(fact, before.held),
        floor: number_in(fact).max(before.floor),
    }
}

/// The row of a peer of which nothing is known.
fn blank() -> Row
    ensures { result ≡ row_or_blank None }
{
    Row {
        held: None,
        floor: 0,
    }
}

impl Rows {
    /// No rows yet. It takes no memory.
    pub(crate) fn new(alloc: Global) -> Rows
        ensures { result ≡ empty }
    {
        Rows {
            map: HashMap::new(alloc),
        }
    }

    /// How many rows there are.
    pub(crate) fn len(&self) -> usize
        ensures { result ≡ len self.now }
    {
        self.map.len()
    }

    /// The row of the peer.
    fn at(&self, peer: &[u8; 32]) -> Option<&Row>
        ensures { option_copied result ≡ get self.now peer.now }
    {
        self.map.get(&Print::of(peer))
    }

    /// What is held with the peer.
    pub(crate) fn held(&self, peer: &[u8; 32]) -> Option<&Held>
        ensures { option_copied result ≡ (row_in self.now peer.now).held }
    {
        match self.at(peer) {
            Some(row) => row.held.as_ref(),
            None => None,
        }
    }

    /// What is known of the peer.
    pub(crate) fn seat(&self, peer: &[u8; 32]) -> Seat
        ensures held { result.held ≡ (row_in self.now peer.now).held }
        ensures floor { result.floor ≡ (row_in self.now peer.now).floor }
        ensures known { result.known ≡ contains_key self.now peer.now }
        ensures holds { IsSome result.held → result.known ≡ true }
    {
        match self.at(peer) {
            Some(row) => Seat {
                known: true,
                held: row.held,
                floor: row.floor,
            },
            None => Seat {
                known: false,
                held: None,
                floor: 0,
            },
        }
    }

    /// Notes a fact in the row that its peer has.
    pub(crate) fn note(&mut self, fact: &Fact)
        requires { contains_key self.old (peer_of fact.now) ≡ true }
        ensures rows { self.new ≡ rows_after fact.now self.old }
        ensures known { contains_key self.new (peer_of fact.now) ≡ true }
        ensures len { len self.new ≡ len self.old }
    {
        let Some(row) = self.map.get_mut(&Print::of(&peer_of(fact))) else {
            return;
        };
        *row = row_after(fact, *row);
    }

    /// Notes a fact, where there is one, in the row that its peer has.
    pub(crate) fn note_if(&mut self, fact: &Option<Fact>)
        requires { IfSome fact.now (λ fact. contains_key self.old (peer_of fact) ≡ true) }
        ensures rows { self.new ≡ rows_after_if fact.now self.old }
        ensures len { len self.new ≡ len self.old }
    {
        if let Some(fact) = fact {
            self.note(fact);
        }
    }

    /// Notes a fact in a new row of its peer, which has none.
    fn add(&mut self, fact: &Fact) -> Result<(), AllocError>
        requires { contains_key self.old (peer_of fact.now) ≡ false }
        ensures rows { OnOk result (self.new ≡ rows_after fact.now self.old) }
        ensures len { OnOk result (len self.new ≡ len self.old + 1) }
        ensures err { OnErr result (self.new ≡ self.old) }
    {
        self.map
            .insert(Print::of(&peer_of(fact)), row_after(fact, blank()))?;
        Ok(())
    }

    /// Notes a fact, and before it the end of what made way for it. Where the peer has no row it
    /// makes one.
    pub(crate) fn note_after(
        &mut self,
        known: bool,
        ended: &Option<Fact>,
        fact: &Fact,
    ) -> Result<(), AllocError>
        requires known { known ≡ contains_key self.old (peer_of fact.now) }
        requires peer { IfSome ended.now (λ end. peer_of end ≡ peer_of fact.now) }
        requires ends { IsSome ended.now → known ≡ true }
        ensures rows { OnOk result (self.new
            ≡ rows_after fact.now (rows_after_if ended.now self.old)) }
        ensures room { (max_peers : ℕ) → IsRoom known (len self.old) max_peers →
            len self.old ≤ max_peers → len self.new ≤ max_peers }
        ensures err { OnErr result (self.new ≡ self.old) }
        ensures takes_none { known ≡ true → IsOk result }
    {
        match (known, ended) {
            (true, Some(ended)) => {
                self.note(ended);
                self.note(fact);
                Ok(())
            }
            (true, None) => {
                self.note(fact);
                Ok(())
            }
            (false, _) => self.add(fact),
        }
    }
}
