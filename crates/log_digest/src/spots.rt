//! What stands under all session IDs.

ghost use Rattle.std.specs.Prelude.{◌≡◌, ◌<◌, ◌≤◌, OnOk};
ghost use Rattle.std.specs.FinMap.{empty, get, insert, len, remove};
ghost use Rattle.log_digest.specs.Changes.{changed};

use crate::spot::{Change, Spot};
use rtmfp_base::Memory;
use std::alloc::Global;
use std::collections::HashMap;
use std::marker::Model;

/// What stands under session IDs, each found in constant time on average.
///
/// Contracts see it as a finite map, and how many more there is room for.
#[derive(Drop)]
pub(crate) struct Spots {
    map: HashMap<u32, Spot>,
}

impl Model for Spots {
    ghost use Rattle.std.specs.FinMap.{from_entries};
    ghost use Rattle.std.specs.HashMap.{spare};
    ghost use Rattle.log_digest.specs.contracts.spot.Spot as spot_type;
    ghost use Rattle.log_digest.specs.Kept.{SpotMap, spot_map_code};

    ghost Value = { SpotMap };

    ghost coded = { spot_map_code spot_type.the_row.coded };

    ghost view = { λ s. record { table = from_entries s.map.entries; spare = spare s.map } };
}

impl Spots {
    /// Nothing under any. It takes no memory.
    pub(crate) fn new(alloc: Global) -> Spots
        ensures { result.table ≡ empty }
    {
        Spots {
            map: HashMap::new(alloc),
        }
    }

    /// Under how many something stands.
    pub(crate) fn len(&self) -> usize
        ensures { result ≡ len self.now.table }
    {
        self.map.len()
    }

    /// What stands under this session ID.
    pub(crate) fn get(&self, near: u32) -> Option<Spot>
        ensures { result ≡ get self.now.table near }
    {
        self.map.get(&near).copied()
    }

    /// Finds memory for one more.
    pub(crate) fn reserve(&mut self) -> Result<(), Memory>
        ensures ok { OnOk result (0 < self.new.spare) }
        ensures table { self.new.table ≡ self.old.table }
    {
        match self.map.try_reserve(1) {
            Ok(()) => Ok(()),
            Err(_) => Err(Memory),
        }
    }

    /// Puts something under a session ID, for which there is room. It takes no memory.
    fn put(&mut self, near: u32, spot: Spot)
        requires { 0 < self.old.spare }
        ensures { self.new.table ≡ insert self.old.table near spot }
    {
        match self.map.insert(near, spot) {
            Ok(_) => {}
            Err(_) => unreachable!(),
        }
    }

    /// Takes away what stands under a session ID. It takes no memory.
    fn take(&mut self, near: u32)
        ensures { self.new.table ≡ remove self.old.table near }
    {
        self.map.remove(&near);
    }

    /// Does a change, for which there is room.
    pub(crate) fn change(&mut self, change: Change)
        requires { 0 < self.old.spare }
        ensures { self.new.table ≡ changed change self.old.table }
    {
        match change {
            Change::Stays => {}
            Change::Puts(near, spot) => self.put(near, spot),
            Change::Takes(near) => self.take(near),
        }
    }
}
