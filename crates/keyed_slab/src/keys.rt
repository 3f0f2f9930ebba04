//! Which key a thing has, by its near id.

ghost use Rattle.std.specs.Prelude.{◌≡◌, ◌<◌, ◌≤◌, ◌^◌, OnOk};
ghost use Rattle.std.specs.FinMap.{empty, get, insert, len, remove};

use rtmfp_base::Memory;
use std::alloc::Global;
use std::collections::HashMap;
use std::marker::Model;

/// The slot of a thing, and how many things the slot had before.
#[derive(Clone, Copy, Debug, PartialEq, Eq)]
pub struct Key {
    pub slot: usize,
    pub generation: u64,
}

/// The keys of things, each under a near id, where it is found in constant time on average.
///
/// Contracts see them as a finite map, and how many more there is room for.
#[derive(Drop)]
pub struct Keys {
    map: HashMap<u32, Key>,
}

impl Model for Keys {
    ghost use Rattle.std.specs.FinMap.{from_entries};
    ghost use Rattle.std.specs.HashMap.{spare};
    ghost use Rattle.keyed_slab.specs.contracts.keys.Key as key_type;
    ghost use Rattle.keyed_slab.specs.Keys.{KeyMap, key_map_code};

    ghost Value = { KeyMap };

    ghost coded = { key_map_code key_type.the_row.coded };

    ghost view = { λ k. record { keys = from_entries k.map.entries; spare = spare k.map } };
}

impl Keys {
    /// No keys. It takes no memory.
    pub fn new(alloc: Global) -> Keys
        ensures { result.keys ≡ empty }
    {
        Keys {
            map: HashMap::new(alloc),
        }
    }

    /// How many keys there are.
    pub fn len(&self) -> usize
        ensures value { result ≡ len self.now.keys }
        ensures small { result < 2 ^ 63 }
    {
        self.map.len()
    }

    /// The key under this near id.
    pub fn get(&self, near: u32) -> Option<Key>
        ensures { result ≡ get self.now.keys near }
    {
        self.map.get(&near).copied()
    }

    /// Finds memory for one more key.
    pub fn reserve(&mut self) -> Result<(), Memory>
        ensures ok { OnOk result (0 < self.new.spare) }
        ensures keys { self.new.keys ≡ self.old.keys }
    {
        match self.map.try_reserve(1) {
            Ok(()) => Ok(()),
            Err(_) => Err(Memory),
        }
    }

    /// Puts a key under a near id, for which there is room. It takes no memory.
    pub fn put(&mut self, near: u32, key: Key)
        requires { 0 < self.old.spare }
        ensures { self.new.keys ≡ insert self.old.keys near key }
    {
        match self.map.insert(near, key) {
            Ok(_) => {}
            Err(_) => unreachable!(),
        }
    }

    /// Takes out the key under a near id, where there is one. It takes no memory.
    pub fn take(&mut self, near: u32) -> Option<Key>
        ensures value { result ≡ get self.old.keys near }
        ensures rest { self.new.keys ≡ remove self.old.keys near }
        ensures spare { self.old.spare ≤ self.new.spare }
    {
        self.map.remove(&near)
    }
}
