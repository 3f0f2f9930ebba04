//! Things in slots, each slot with the number of things that it had before.

ghost use Rattle.std.specs.Prelude.{◌≡◌, ◌≢◌, ◌<◌, ◌≤◌, ◌+◌, ◌-◌, ℕ, [], Some, None, IsSome, IfOk, OnOk, length, option_copied, slice_index_or, vec_capacity};
ghost use Rattle.std.specs.Borrow.{Lends, sem};
ghost use Rattle.keyed_slab.specs.KeyedSlab.{generation_at, named, thing_at, IsChangedAt};
ghost use Rattle.keyed_slab.specs.Calls.{HasPut, HasRemoved, HasReserved};
ghost use Rattle.keyed_slab.specs.Inside.{taken_by};

use crate::keys::Key;
use rtmfp_base::Memory;
use slab::Slab;
use std::alloc::Global;
use std::marker::Model;
use std::ops::{Index, IndexMut};

/// Things, each in a slot that it keeps. A slot is given again once its thing is taken away, and a
/// key, which has the number of the things that the slot had before, names nothing then.
///
/// Contracts see for each slot the thing there and the generation, below which number the slots
/// stand, and for how many more things there is room. Once the generations of a slot are spent, its
/// generation is 2^64, which no key has.
#[derive(Drop)]
pub struct KeyedSlab<T> {
    places: Slab<Place<T>>,
    /// For each slot how many things it had that are gone.
    generations: Vec<u64>,
}

/// What stands in a slot that was given.
#[derive(Drop)]
enum Place<T> {
    /// Nothing, since its generations are spent: it is never given again.
    Spent,
    Taken(T),
}

impl<T> Model for KeyedSlab<T> {
    ghost use Rattle.keyed_slab.specs.KeyedSlab.{Seats, seats_code};
    ghost use Rattle.keyed_slab.specs.Inside.{IsSound, seats_of};

    ghost Value = { Seats T };

    ghost coded = { seats_code T.code };

    ghost view = { λ s. seats_of s.places s.generations.items };

    ghost invariant = { λ s. IsSound s.places.slots s.generations.items };
}

impl<T> Place<T> {
    ghost use Rattle.keyed_slab.specs.contracts.keyed_slab.Place.{the_row};

    fn thing(&self) -> Option<&T>
        ensures { option_copied result ≡ taken_by self.now }
    {
        match self {
            Place::Taken(thing) => Some(thing),
            Place::Spent => None,
        }
    }

    fn thing_mut(&mut self) -> &mut T
        requires { IsSome (taken_by self.old) }
        ensures* lends { sem 𝓛 (Lends (the_row T.row) T.row self.entry result Place.Taken) }
        ensures value { taken_by self.old ≡ Some result.now }
    {
        match self {
            Place::Taken(thing) => thing,
            Place::Spent => unreachable!(),
        }
    }
}

/// Gives each slot below a number a generation, where the vector has the memory already.
fn widen(generations: &mut Vec<u64>, room: usize)
    requires { room ≤ vec_capacity generations.old }
    ensures long { room ≤ length generations.new.items }
    ensures least { length generations.old.items ≤ length generations.new.items }
    ensures kept { (slot : ℕ) → slice_index_or generations.new.items slot 0
        ≡ slice_index_or generations.old.items slot 0 }
{
    while generations.len() < room {
        generations.push_reserved(0);
    }
}

impl<T> KeyedSlab<T> {
    /// Nothing in any slot. It takes no memory.
    pub fn new(alloc: Global) -> KeyedSlab<T>
        ensures things { result.things ≡ [] }
        ensures generations { result.generations ≡ [] }
    {
        KeyedSlab {
            places: Slab::new(alloc),
            generations: Vec::new(alloc),
        }
    }

    /// What stands in a slot.
    pub fn get(&self, slot: usize) -> Option<&T>
        ensures { option_copied result ≡ thing_at self.now slot }
    {
        match self.places.get(slot) {
            Some(place) => place.thing(),
            None => None,
        }
    }

    /// The generation of a slot in which something stands.
    fn generation(&self, slot: usize) -> u64
        ensures { IsSome (thing_at self.now slot) → result ≡ generation_at self.now slot }
    {
        match self.generations.get(slot) {
            Some(generation) => *generation,
            None => 0,
        }
    }

    /// What a key names: one of another generation than its slot's names nothing.
    pub fn named(&self, key: Key) -> Option<&T>
        ensures { option_copied result ≡ named self.now key }
    {
        if self.generation(key.slot) == key.generation {
            return self.get(key.slot);
        }
        None
    }

    /// A number above each slot that has a thing.
    pub fn bound(&self) -> usize
        ensures { (slot : ℕ) → IsSome (thing_at self.now slot) → slot < result }
    {
        self.generations.len()
    }

    /// Finds memory for one more thing, and gives the highest slot that it may get.
    pub fn reserve(&mut self) -> Result<usize, Memory>
        ensures ok { OnOk result (0 < self.new.free) }
        ensures last { IfOk result (λ last. self.new.room ≡ last + 1) }
        ensures things { self.new.things ≡ self.old.things }
        ensures generations { (slot : ℕ) → generation_at self.new slot
            ≡ generation_at self.old slot }
        ensures call { HasReserved self.old self.new }
    {
        match self.places.reserve(1) {
            Ok(()) => {}
            Err(_) => return Err(Memory),
        }
        let room = self.places.capacity();
        let more = room.saturating_sub(self.generations.len());
        match self.generations.reserve(more) {
            Ok(()) => {}
            Err(_) => return Err(Memory),
        }
        widen(&mut self.generations, room);
        Ok(room - 1)
    }

    /// Puts a thing in a slot, for which there is room, and gives its key. It takes no memory.
    pub fn put(&mut self, thing: T) -> Key
        requires { 0 < self.old.free }
        ensures below { result.slot < self.old.room }
        ensures vacant { thing_at self.old result.slot ≡ None }
        ensures things { IsChangedAt self.old.things self.new.things result.slot (Some thing) }
        ensures generation { result.generation ≡ generation_at self.old result.slot }
        ensures generations { self.new.generations ≡ self.old.generations }
        ensures call { HasPut self.old self.new thing result }
    {
        let slot = self.places.insert_reserved(Place::Taken(thing));
        let generation = self.generations[slot];
        Key { slot, generation }
    }
}

impl<T: Drop> KeyedSlab<T> {
    /// Takes away the thing in a slot. No key names it from now on. It takes no memory.
    pub fn remove(&mut self, slot: usize)
        requires { IsSome (thing_at self.old slot) }
        ensures things { IsChangedAt self.old.things self.new.things slot None }
        ensures risen { generation_at self.new slot ≡ generation_at self.old slot + 1 }
        ensures generations { (other : ℕ) → other ≢ slot
            → generation_at self.new other ≡ generation_at self.old other }
        ensures room { self.new.room ≡ self.old.room }
        ensures free { self.old.free ≤ self.new.free }
        ensures call { HasRemoved self.old self.new slot }
    {
        self.places.remove(slot);
        let generation = self.generations[slot];
        if generation == u64::MAX {
            self.places.insert_reserved(Place::Spent);
            return;
        }
        self.generations[slot] = generation + 1;
    }
}

impl<T> Index<usize> for KeyedSlab<T> {
    type Output = T;

    ghost can_index = { λ s slot. IsSome (thing_at s slot) };

    ghost index_gives = { λ s slot thing. thing_at s slot ≡ Some thing };

    fn index(&self, slot: usize) -> &T {
        match self.get(slot) {
            Some(thing) => thing,
            None => unreachable!(),
        }
    }
}

impl<T> IndexMut<usize> for KeyedSlab<T> {
    ghost use Rattle.keyed_slab.specs.Lends.{lends_thing};

    fn index_mut(&mut self, slot: usize) -> &mut T
        requires { IsSome (thing_at self.old slot) }
        ensures* writes_back { sem 𝓛 (lends_thing T.row self.entry slot result) }
        ensures value { thing_at self.old slot ≡ Some result.now }
    {
        self.places[slot].thing_mut()
    }
}
