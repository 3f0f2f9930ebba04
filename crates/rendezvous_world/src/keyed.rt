//! Numbers in their order, and for each the last one before it that is the same.

ghost use Rattle.std.specs.Prelude.{◌≡◌, ◌++◌, ◌∷◌, ◌<◌, [], OnErr, OnOk, get_or, length, take};
ghost use Rattle.rendezvous_world.specs.Keyed.{IsLast};

use crate::entering::put;
use rtmfp_base::Memory;
use std::alloc::Global;
use std::collections::BTreeMap;
use std::marker::Model;

/// A key, and the index of the last one before it that is the same.
#[derive(Clone, Copy)]
pub(crate) struct Row {
    key: u64,
    before: Option<usize>,
}

/// A list of keys, in which the indices of a key are found from the last one to the first.
/// Contracts see the list.
#[derive(Drop)]
pub(crate) struct Keyed {
    rows: Vec<Row>,
    /// The last index of each key.
    last: BTreeMap<u64, usize>,
}

impl Model for Keyed {
    ghost use Rattle.std.specs.Prelude.{List, ℕ};
    ghost use Rattle.rendezvous_world.specs.Keyed.{keys_of, IsChained};

    ghost Value = { List ℕ };

    ghost view = { λ k. keys_of k.rows.items };

    ghost invariant = { λ k. IsChained k.rows.items k.last };
}

impl Keyed {
    /// No keys. It takes no memory.
    pub(crate) fn new(alloc: Global) -> Keyed
        ensures { result ≡ [] }
    {
        Keyed {
            rows: Vec::new(alloc),
            last: BTreeMap::new(alloc),
        }
    }

    /// How many keys there are.
    pub(crate) fn len(&self) -> usize
        ensures { result ≡ length self.now }
    {
        self.rows.len()
    }

    /// Adds a key at the end.
    pub(crate) fn push(&mut self, key: u64) -> Result<(), Memory>
        ensures ok { OnOk result (self.new ≡ self.old ++ key ∷ []) }
        ensures err { OnErr result (self.new ≡ self.old) }
    {
        let at = self.len();
        self.rows.reserve(1)?;
        let Ok(before) = self.last.insert(key, at) else {
            return Err(Memory);
        };
        put(&mut self.rows, Row { key, before });
        Ok(())
    }

    /// The last index of a key.
    pub(crate) fn last(&self, key: u64) -> Option<usize>
        ensures { IsLast result key self.now }
    {
        match self.last.get(&key) {
            Some(at) => Some(*at),
            None => None,
        }
    }

    /// The last index of the same key before this one.
    pub(crate) fn before(&self, at: usize) -> Option<usize>
        requires { at < length self.now }
        ensures { IsLast result (get_or self.now at 0) (take at self.now) }
    {
        self.rows[at].before
    }
}
