//! The entries that calls added, in order.

ghost use Rattle.std.specs.Prelude.{◌≡◌, ◌<◌, ◌≤◌, ◌+◌, ◌^◌, ◌++◌, [], ◌∷◌, IfOk, IfSome, IsOk};
ghost use Rattle.std.specs.Prelude.{OnOk, length, option_to_list};
ghost use Rattle.endpoint_model.specs.Added.{AreShort, IsShort};
ghost use Rattle.endpoint_model.specs.State.{fact_entries};

use endpoint_model::Entry;
use glare_core::Fact;
use rtmfp_base::Memory;
use std::alloc::{AllocError, Global};
use std::marker::Model;

/// The entries that calls of an end added, in order, and room for further ones.
///
/// Contracts see the entries, the free room, and the room that `clear` gives again. No datagram
/// among the entries passes 1,200 bytes.
#[derive(Drop)]
pub struct Outbox {
    room: u32,
    entries: Vec<Entry>,
}

impl Model for Outbox {
    ghost use Rattle.std.specs.Prelude.{◌-◌, ◌≤◌, vec_len, vec_capacity};
    ghost use Rattle.endpoint_model.specs.Added.{Added, AreShort};

    ghost Value = { Added };

    ghost view = { λ o. record {
      entries = o.entries.items;
      free = vec_capacity o.entries - vec_len o.entries;
      room = o.room;
    } };

    ghost invariant = { λ o. (o.room ≤ vec_capacity o.entries) × AreShort o.entries.items };
}

impl Outbox {
    /// An outbox without entries, with room for at least so many.
    pub fn new(alloc: Global, room: u32) -> Result<Outbox, Memory>
        ensures { IfOk result (λ outbox. (outbox.entries ≡ []) × (room ≤ outbox.free) ×
            (outbox.room ≡ room)) }
    {
        let entries = Vec::with_capacity(alloc, room as usize)?;
        Ok(Outbox { room, entries })
    }

    /// The entries, in the order in which they were added.
    pub fn entries(&self) -> &[Entry]
        ensures entries { result.now ≡ self.now.entries }
        ensures short { AreShort self.now.entries }
    {
        self.entries.as_slice()
    }

    /// Drops the entries. There is then room for as many as at first, or more.
    pub fn clear(&mut self)
        ensures entries { self.new.entries ≡ [] }
        ensures free { self.new.room ≤ self.new.free }
        ensures room { self.new.room ≡ self.old.room }
    {
        self.entries.clear();
    }

    /// Gives back the room that no entry takes, as far as the allocator takes it. `clear` then
    /// promises none.
    pub fn trim(&mut self)
        ensures entries { self.new.entries ≡ self.old.entries }
        ensures room { self.new.room ≡ 0 }
    {
        self.room = 0;
        self.entries.shrink_to_fit();
    }

    /// Finds room for so many further entries.
    pub fn make_room(&mut self, count: usize) -> Result<(), AllocError>
        ensures ok { OnOk result (count ≤ self.new.free) }
        ensures small { OnOk result (count < 2 ^ 63) }
        ensures entries { self.new.entries ≡ self.old.entries }
        ensures free { self.old.free ≤ self.new.free }
        ensures enough { count ≤ self.old.free → IsOk result }
        ensures room { self.new.room ≡ self.old.room }
    {
        self.entries.reserve(count)
    }

    /// Adds an entry for which there is room, and whose datagram, if it has one, is short enough.
    /// It takes no memory.
    pub fn add(&mut self, entry: Entry)
        requires room { 0 < self.old.free }
        requires short { IsShort entry }
        ensures entries { self.new.entries ≡ self.old.entries ++ entry ∷ [] }
        ensures free { self.old.free ≤ self.new.free + 1 }
        ensures room { self.new.room ≡ self.old.room }
    {
        match self.entries.push(entry) {
            Ok(()) => {}
            Err(_) => {}
        }
    }

    /// Adds an entry, where there is one, as `add` does.
    pub fn add_some(&mut self, entry: Option<Entry>)
        requires room { 0 < self.old.free }
        requires short { IfSome entry (λ entry. IsShort entry) }
        ensures entries { self.new.entries ≡ self.old.entries ++ option_to_list entry }
        ensures free { self.old.free ≤ self.new.free + length (option_to_list entry) }
        ensures one { self.old.free ≤ self.new.free + 1 }
        ensures room { self.new.room ≡ self.old.room }
    {
        match entry {
            Some(entry) => self.add(entry),
            None => {}
        }
    }
}

/// The entry of a fact, where there is one.
pub fn fact_entry(fact: Option<Fact>) -> Option<Entry>
    ensures entries { fact_entries fact ≡ option_to_list result }
    ensures short { IfSome result (λ entry. IsShort entry) }
{
    match fact {
        Some(fact) => Some(Entry::Fact(fact)),
        None => None,
    }
}
