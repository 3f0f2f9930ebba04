//! One binary heap of entries, in which each slot keeps the place of its entry.

ghost use Rattle.std.specs.Prelude.{◌≡◌, ◌+◌, [], IfSome, IfNone, IsOk, OnOk, OnErr};
ghost use Rattle.deadlines.specs.Deadlines.{HasRoom, NoneIsDue, deadline_set, deadline_cleared, with_room};
ghost use Rattle.deadlines.specs.Halves.{IsDueIn, IsLowDue};

use crate::edits::{put, take_out, widen};
use crate::entry::{Entry, Order};
use crate::search::{due_place, lowest_place};
use rtmfp_base::Memory;
use std::alloc::Global;
use std::marker::Model;

/// Deadlines of slots as a binary heap, in either order.
///
/// Contracts see the slots that have room, each with its entry or none.
#[derive(Drop)]
pub struct Heap {
    by: Order,
    /// One for each slot with room: first the entries, as a heap, then the slots that have none.
    entries: Vec<Entry>,
    /// The place at which each slot stands.
    places: Vec<usize>,
    /// How many entries there are.
    count: usize,
}

impl Model for Heap {
    ghost use Rattle.deadlines.specs.Deadlines.{Slots};
    ghost use Rattle.deadlines.specs.Inside.{slots_of, IsKept};

    ghost Value = { Slots };

    ghost view = { λ h. slots_of h.entries.items h.places.items h.count };

    ghost invariant = { λ h. IsKept h.by h.entries.items h.places.items h.count };
}

impl Heap {
    /// No slot has room. It takes no memory.
    pub fn new(alloc: Global, by: Order) -> Heap
        ensures { result ≡ [] }
    {
        Heap {
            by,
            entries: Vec::new(alloc),
            places: Vec::new(alloc),
            count: 0,
        }
    }

    /// Gives the slot room, and the slots below it. A slot that has room takes no memory.
    pub fn reserve(&mut self, slot: usize) -> Result<(), Memory>
        ensures ok { OnOk result (self.new ≡ with_room self.old (slot + 1)) }
        ensures err { OnErr result (self.new ≡ self.old) }
        ensures room { OnOk result (HasRoom self.new slot) }
        ensures held { HasRoom self.old slot → IsOk result }
    {
        if slot < self.places.len() {
            return Ok(());
        }
        let Some(room) = slot.checked_add(1) else {
            return Err(Memory);
        };
        let more = room.saturating_sub(self.places.len());
        match self.entries.reserve(more) {
            Ok(()) => {}
            Err(_) => return Err(Memory),
        }
        match self.places.reserve(more) {
            Ok(()) => {}
            Err(_) => return Err(Memory),
        }
        widen(&mut self.entries, &mut self.places, room);
        Ok(())
    }

    /// Makes the slot's entry, or moves it, at a logarithm. It takes no memory.
    pub fn set(&mut self, slot: usize, at: u128, near: u32)
        requires { HasRoom self.old slot }
        ensures { self.new ≡ deadline_set self.old slot at near }
    {
        self.count = put(
            self.by,
            &mut self.entries,
            &mut self.places,
            self.count,
            Entry { slot, at, near },
        );
    }

    /// Takes out the slot's entry, where there is one, at a logarithm, and leaves its room.
    pub fn clear(&mut self, slot: usize)
        ensures { self.new ≡ deadline_cleared self.old slot }
    {
        if slot >= self.places.len() {
            return;
        }
        self.count = take_out(
            self.by,
            &mut self.entries,
            &mut self.places,
            self.count,
            slot,
        );
    }

    /// An entry with a deadline at most `moment`; None where there is none. By deadlines it looks at
    /// one entry.
    pub fn any_due(&self, moment: u64) -> Option<Entry>
        ensures some { IfSome result (IsDueIn self.now moment) }
        ensures none { IfNone result (NoneIsDue self.now moment) }
    {
        match due_place(self.by, &self.entries, self.count, moment) {
            None => None,
            Some(place) => Some(self.entries[place]),
        }
    }

    /// Of the entries with a deadline at most `moment` one with the lowest near id; None where
    /// there is none.
    ///
    /// By deadlines it looks at no more than twice the entries that are due and one, by near ids at
    /// no more than twice those that aren't due and one.
    pub fn lowest_due(&self, moment: u64) -> Option<Entry>
        ensures some { IfSome result (IsLowDue self.now moment) }
        ensures none { IfNone result (NoneIsDue self.now moment) }
    {
        match lowest_place(self.by, &self.entries, self.count, moment) {
            None => None,
            Some(place) => Some(self.entries[place]),
        }
    }
}
