//! What a table keeps of its sessions.

ghost use Rattle.std.specs.Prelude.{◌≡◌, ◌<◌, ◌≤◌, None, Some, IsSome, OnOk};
ghost use Rattle.std.specs.FinMap.{empty, get, insert, remove};
ghost use Rattle.keyed_slab.specs.KeyedSlab.{thing_at};
ghost use Rattle.session_table.specs.Inside.{IsKept, IsLoose, rows_in};
ghost use Rattle.session_table.specs.Table.{near_of};
ghost use Rattle.session_table.specs.Room.{free_of};

use crate::round::Round;
use crate::row_facts::{deadline_of, may_be_due, near_of};
use deadlines::Deadlines;
use endpoint_model::Row;
use keyed_slab::{KeyedSlab, Keys, SlotSet};
use rtmfp_base::Memory;
use std::alloc::{AllocError, Global};

/// The rows of a table, and what finds them without going through all.
#[derive(Drop)]
pub(crate) struct Kept {
    /// The rows, each in a slot that it keeps.
    pub(crate) rows: KeyedSlab<Row>,
    /// The key of each session's row.
    pub(crate) keys: Keys,
    /// When something of its own is due of the session in each slot.
    pub(crate) deadlines: Deadlines,
    /// The slots of the sessions with a sending flow that isn't idle.
    pub(crate) busy: SlotSet,
    /// Those of them that a tick has still to look at.
    pub(crate) round: Round,
}

impl Kept {
    /// Brings what finds the row in a slot up to what the row has become.
    pub(crate) fn settle(&mut self, slot: usize)
        requires { IsLoose self.old.rows self.old.keys.keys self.old.deadlines self.old.busy self.old.round
            slot }
        ensures kept { IsKept self.new.rows self.new.keys.keys self.new.deadlines
            self.new.busy self.new.round }
        ensures table { rows_in self.new.rows ≡ rows_in self.old.rows }
    {
        let row = &self.rows[slot];
        let is_busy = may_be_due(row);
        let near = near_of(row);
        self.deadlines.set(slot, deadline_of(row), near);
        self.busy.set(slot, is_busy);
        self.round.put(near);
    }

    /// Keeps one more row, for which there is room.
    pub(crate) fn add(&mut self, row: Row)
        requires kept { IsKept self.old.rows self.old.keys.keys self.old.deadlines
            self.old.busy self.old.round }
        requires none { get self.old.keys.keys (near_of row) ≡ None }
        requires room { 0 < free_of self.old }
        ensures kept { IsKept self.new.rows self.new.keys.keys self.new.deadlines
            self.new.busy self.new.round }
        ensures table { rows_in self.new.rows ≡ insert (rows_in self.old.rows) (near_of row) row }
    {
        let near = near_of(&row);
        let key = self.rows.put(row);
        self.keys.put(near, key);
        self.settle(key.slot);
    }

    /// Takes away the row in a slot.
    pub(crate) fn forget(&mut self, slot: usize)
        requires kept { IsKept self.old.rows self.old.keys.keys self.old.deadlines
            self.old.busy self.old.round }
        requires there { IsSome (thing_at self.old.rows slot) }
        ensures kept { IsKept self.new.rows self.new.keys.keys self.new.deadlines
            self.new.busy self.new.round }
        ensures table { (row : Row) → thing_at self.old.rows slot ≡ Some row
            → rows_in self.new.rows ≡ remove (rows_in self.old.rows) (near_of row) }
        ensures free { free_of self.old ≤ free_of self.new }
    {
        let near = near_of(&self.rows[slot]);
        self.rows.remove(slot);
        let _ = self.keys.take(near);
        self.deadlines.clear(slot);
        self.busy.set(slot, false);
    }

    /// Finds memory for one more row.
    pub(crate) fn reserve(&mut self) -> Result<(), AllocError>
        requires kept { IsKept self.old.rows self.old.keys.keys self.old.deadlines
            self.old.busy self.old.round }
        ensures kept { IsKept self.new.rows self.new.keys.keys self.new.deadlines
            self.new.busy self.new.round }
        ensures rows { self.new.rows.things ≡ self.old.rows.things }
        ensures ok { OnOk result (0 < free_of self.new) }
    {
        match self.find_room() {
            Ok(()) => Ok(()),
            Err(Memory) => Err(AllocError),
        }
    }

    /// The same with the error of what is kept.
    fn find_room(&mut self) -> Result<(), Memory>
        requires kept { IsKept self.old.rows self.old.keys.keys self.old.deadlines
            self.old.busy self.old.round }
        ensures kept { IsKept self.new.rows self.new.keys.keys self.new.deadlines
            self.new.busy self.new.round }
        ensures rows { self.new.rows.things ≡ self.old.rows.things }
        ensures ok { OnOk result (0 < free_of self.new) }
    {
        self.keys.reserve()?;
        let last = self.rows.reserve()?;
        self.deadlines.reserve(last)?;
        self.busy.reserve(last)?;
        self.round.reserve(last)
    }

    /// No rows. It takes no memory.
    pub(crate) fn new(alloc: Global) -> Kept
        ensures kept { IsKept result.rows result.keys.keys result.deadlines result.busy result.round }
        ensures rows { rows_in result.rows ≡ empty }
    {
        Kept {
            rows: KeyedSlab::new(alloc),
            keys: Keys::new(alloc),
            deadlines: Deadlines::new(alloc),
            busy: SlotSet::new(alloc),
            round: Round::new(alloc),
        }
    }
}
