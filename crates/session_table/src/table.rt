//! The table of the sessions, by their session IDs.

use crate::kept::Kept;
use crate::row_facts::near_of;
use crate::slot::{key_near, slot_near};
use endpoint_model::Row;
use keyed_slab::Key;
use mobility::Moves;
use rtmfp_fragments::Reassembly;
use session_core::Session;
use session_flows::Flows;
use std::alloc::{AllocError, Global};
use std::marker::Model;

/// The sessions of an end, each in a row under its session ID.
///
/// Contracts see the rows by their session IDs, and for how many more there is room.
#[derive(Drop)]
pub struct SessionTable {
    pub(crate) alloc: Global,
    /// The rows, and what finds them.
    pub(crate) kept: Kept,
    /// The key of the session of the last datagram, which is tried first.
    pub(crate) likely: Key,
}

impl Model for SessionTable {
    ghost use Rattle.endpoint_model.specs.contracts.row.Row as row_type;
    ghost use Rattle.session_table.specs.Inside.{IsKept, rows_in};
    ghost use Rattle.session_table.specs.Room.{free_of};
    ghost use Rattle.session_table.specs.Table.{Table, table_code};

    ghost Value = { Table };

    ghost coded = { table_code row_type.the_row.coded };

    ghost view = { λ t. record {
      rows = rows_in t.kept.rows;
      free = free_of t.kept;
    } };

    ghost invariant = { λ t. IsKept t.kept.rows t.kept.keys.keys t.kept.deadlines
        t.kept.busy t.kept.round };
}

impl SessionTable {
    ghost use Rattle.std.specs.Prelude.{◌≡◌, ◌<◌, ◌≤◌, ◌^◌, OnOk};
    ghost use Rattle.std.specs.Option.{option_copied};
    ghost use Rattle.std.specs.FinMap.{contains_key, empty, get, insert, len, remove};
    ghost use Rattle.endpoint_model.specs.State.{new_row};
    ghost use Rattle.session_table.specs.Table.{near_of};

    /// A table without sessions. It takes no memory.
    pub fn new(alloc: Global) -> SessionTable
        ensures { result.rows ≡ empty }
    {
        SessionTable {
            alloc,
            kept: Kept::new(alloc),
            likely: Key {
                slot: 0,
                generation: 0,
            },
        }
    }

    /// How many sessions there are.
    pub fn count(&self) -> usize
        ensures value { result ≡ len self.now.rows }
        ensures small { result < 2 ^ 63 }
    {
        self.kept.keys.len()
    }

    /// Whether a session has this session ID.
    pub fn has(&self, near: u32) -> bool
        ensures { result ≡ contains_key self.now.rows near }
    {
        slot_near(&self.kept, near, self.likely).is_some()
    }

    /// The row of the session with this session ID.
    pub fn row(&self, near: u32) -> Option<&Row>
        ensures { option_copied result ≡ get self.now.rows near }
    {
        match slot_near(&self.kept, near, self.likely) {
            Some(slot) => Some(&self.kept.rows[slot]),
            None => None,
        }
    }

    /// Looks for the session with this session ID, so that it is found at once from now on.
    pub fn look_up(&mut self, near: u32)
        ensures { self.new ≡ self.old }
    {
        if let Some(key) = key_near(&self.kept, near, self.likely) {
            self.likely = key;
        }
    }

    /// Finds memory for one more session.
    pub fn reserve(&mut self) -> Result<(), AllocError>
        ensures ok { OnOk result (0 < self.new.free) }
        ensures rows { self.new.rows ≡ self.old.rows }
    {
        self.kept.reserve()
    }

    /// Keeps a session that begins under its session ID, for which there is room: no address of it
    /// is tested, it has no flows, and no pieces of packets came or went.
    pub fn keep(&mut self, session: Session)
        requires { 0 < self.old.free }
        ensures { self.new.rows ≡ insert self.old.rows session.joined.near (new_row session) }
    {
        self.keep_row(Row {
            session,
            moves: Moves::new(),
            flows: Flows::new(self.alloc),
            gathering: Reassembly::new(self.alloc),
            packets: 0,
        });
    }

    /// Keeps a row under the session ID of its session, for which there is room.
    fn keep_row(&mut self, row: Row)
        requires { 0 < self.old.free }
        ensures { self.new.rows ≡ insert self.old.rows (near_of row) row }
    {
        match slot_near(&self.kept, near_of(&row), self.likely) {
            Some(slot) => {
                self.kept.rows[slot] = row;
                self.kept.settle(slot);
            }
            None => self.kept.add(row),
        }
    }

    /// Forgets the session with this session ID, where there is one.
    pub fn forget(&mut self, near: u32)
        ensures rows { self.new.rows ≡ remove self.old.rows near }
        ensures free { self.old.free ≤ self.new.free }
    {
        if let Some(slot) = slot_near(&self.kept, near, self.likely) {
            self.kept.forget(slot);
        }
    }
}
