//! A set of slots that is gone through without a look at the others.

ghost use Rattle.std.specs.Prelude.{◌≡◌, ◌<◌, ◌≤◌, ◌+◌, ℕ, [], true, false, OnOk, length, slice_set, vec_capacity};
ghost use Rattle.std.specs.List.{SwappedAt};
ghost use Rattle.keyed_slab.specs.SlotSet.{flag_of, flags_of, slot_at, AreListed, IsTied};

use rtmfp_base::Memory;
use std::alloc::Global;
use std::marker::Model;

/// A set of slots.
///
/// Contracts see for each slot that has room whether it is in the set.
#[derive(Drop)]
pub struct SlotSet {
    /// Each slot that has room: first those in the set.
    slots: Vec<usize>,
    /// The place at which each slot stands.
    places: Vec<usize>,
    /// How many are in the set.
    count: usize,
}

impl Model for SlotSet {
    ghost use Rattle.std.specs.Prelude.{◌≤◌, length};
    ghost use Rattle.keyed_slab.specs.SlotSet.{Flags, IsTied, flags_of};

    ghost Value = { Flags };

    ghost view = { λ s. flags_of s.places.items s.count };

    ghost invariant = { λ s. IsTied s.slots.items s.places.items
        × (s.count ≤ length s.places.items) };
}

/// Exchanges what stands at two places.
fn exchange(slots: &mut [usize], places: &mut [usize], a: usize, b: usize)
    requires tied { IsTied slots.old places.old }
    requires first { a < length slots.old }
    requires second { b < length slots.old }
    ensures tied { IsTied slots.new places.new }
    ensures first { slot_at slots.new a ≡ slot_at slots.old b }
    ensures second { slot_at slots.new b ≡ slot_at slots.old a }
    ensures slots { SwappedAt slots.old slots.new a b }
    ensures places { SwappedAt places.old places.new (slot_at slots.old a) (slot_at slots.old b) }
    ensures long { length places.new ≡ length places.old }
{
    let one = slots[a];
    let other = slots[b];
    slots.swap(a, b);
    places.swap(one, other);
}

/// Puts a slot in the set, and gives how many are in it then.
fn admit(slots: &mut [usize], places: &mut [usize], count: usize, slot: usize) -> usize
    requires tied { IsTied slots.old places.old }
    requires fits { count ≤ length places.old }
    requires room { slot < length places.old }
    ensures tied { IsTied slots.new places.new }
    ensures long { length places.new ≡ length places.old }
    ensures fits { result ≤ length places.new }
    ensures flags { flags_of places.new result ≡ slice_set (flags_of places.old count) slot true }
{
    let place = places[slot];
    if place < count {
        return count;
    }
    exchange(slots, places, place, count);
    count + 1
}

/// Takes a slot out of the set, and gives how many are in it then.
fn withdraw(slots: &mut [usize], places: &mut [usize], count: usize, slot: usize) -> usize
    requires tied { IsTied slots.old places.old }
    requires fits { count ≤ length places.old }
    requires room { slot < length places.old }
    ensures tied { IsTied slots.new places.new }
    ensures long { length places.new ≡ length places.old }
    ensures fits { result ≤ length places.new }
    ensures flags { flags_of places.new result ≡ slice_set (flags_of places.old count) slot false }
{
    let place = places[slot];
    if place >= count {
        return count;
    }
    let last = count - 1;
    exchange(slots, places, place, last);
    last
}

/// Puts a slot in the set or takes it out, and gives how many are in it then.
fn place_in(
    slots: &mut [usize],
    places: &mut [usize],
    count: usize,
    slot: usize,
    is_in: bool,
) -> usize
    requires tied { IsTied slots.old places.old }
    requires fits { count ≤ length places.old }
    requires room { slot < length places.old }
    ensures tied { IsTied slots.new places.new }
    ensures long { length places.new ≡ length places.old }
    ensures fits { result ≤ length places.new }
    ensures flags { flags_of places.new result ≡ slice_set (flags_of places.old count) slot is_in }
{
    if is_in {
        return admit(slots, places, count, slot);
    }
    withdraw(slots, places, count, slot)
}

/// Gives room to the slots below a number, where the vectors have the memory already.
fn widen(slots: &mut Vec<usize>, places: &mut Vec<usize>, room: usize)
    requires tied { IsTied slots.old.items places.old.items }
    requires slots { room ≤ vec_capacity slots.old }
    requires places { room ≤ vec_capacity places.old }
    ensures tied { IsTied slots.new.items places.new.items }
    ensures grown { length places.old.items ≤ length places.new.items }
    ensures room { room ≤ length places.new.items }
    ensures flags { (count slot : ℕ) → count ≤ length places.old.items
        → flag_of (flags_of places.new.items count) slot
        ≡ flag_of (flags_of places.old.items count) slot }
{
    while places.len() < room {
        let slot = places.len();
        slots.push_reserved(slot);
        places.push_reserved(slot);
    }
}

impl SlotSet {
    /// No slot has room. It takes no memory.
    pub fn new(alloc: Global) -> SlotSet
        ensures { result ≡ [] }
    {
        SlotSet {
            slots: Vec::new(alloc),
            places: Vec::new(alloc),
            count: 0,
        }
    }

    /// Gives the slot room, and the slots below it. A slot that has room takes no memory.
    pub fn reserve(&mut self, slot: usize) -> Result<(), Memory>
        ensures room { OnOk result (slot < length self.new) }
        ensures grown { length self.old ≤ length self.new }
        ensures flags { (other : ℕ) → flag_of self.new other ≡ flag_of self.old other }
    {
        if slot < self.places.len() {
            return Ok(());
        }
        let Some(room) = slot.checked_add(1) else {
            return Err(Memory);
        };
        let more = room.saturating_sub(self.places.len());
        match self.slots.reserve(more) {
            Ok(()) => {}
            Err(_) => return Err(Memory),
        }
        match self.places.reserve(more) {
            Ok(()) => {}
            Err(_) => return Err(Memory),
        }
        widen(&mut self.slots, &mut self.places, room);
        Ok(())
    }

    /// Puts the slot in the set, or takes it out. It takes no memory.
    pub fn set(&mut self, slot: usize, is_in: bool)
        requires { slot < length self.old }
        ensures { self.new ≡ slice_set self.old slot is_in }
    {
        self.count = place_in(&mut self.slots, &mut self.places, self.count, slot, is_in);
    }

    /// The slots in the set, in no order.
    pub fn slots(&self) -> &[usize]
        ensures { AreListed self.now result.now }
    {
        &self.slots[..self.count]
    }
}
