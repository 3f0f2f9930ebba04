//! What answers the repeated keyings of sessions that were born here.

ghost use Rattle.std.specs.Prelude.{◌≡◌, ◌<◌, OnOk};
ghost use Rattle.std.specs.Option.{option_copied};
ghost use Rattle.std.specs.FinMap.{empty, get, insert, remove};

use crate::print::Print;
use crypto_profile::PlainKeys;
use rtmfp_base::Memory;
use std::alloc::Global;
use std::collections::HashMap;
use std::marker::Model;

/// What answers a repeated keying of a session that was born here: the generation in which its
/// keying came, the startup keys of that generation as bytes, and the signature of the responder's
/// keying. The secret itself isn't kept (own).
#[derive(Drop)]
pub(crate) struct KeptKeying {
    pub(crate) generation: u64,
    pub(crate) keys: PlainKeys,
    pub(crate) sign: [u8; 32],
}

/// What is kept of such sessions, each under the fingerprint of its peer, where it is found in
/// constant time on average.
///
/// Contracts see it as a finite map, and the room for more.
#[derive(Drop)]
pub(crate) struct KeptKeyings {
    map: HashMap<Print, KeptKeying>,
}

impl Model for KeptKeyings {
    ghost use Rattle.std.specs.FinMap.{from_entries};
    ghost use Rattle.std.specs.HashMap.{spare};
    ghost use Rattle.startup.specs.Kept.{Kept, kept_code};
    ghost use Rattle.startup.specs.contracts.kept.KeptKeying as kept_type;

    ghost Value = { Kept };

    ghost coded = { kept_code kept_type.the_row.coded };

    ghost view = { λ k. record { keyings = from_entries k.map.entries; spare = spare k.map } };
}

impl KeptKeyings {
    /// Nothing is kept. It takes no memory.
    pub(crate) fn new(alloc: Global) -> KeptKeyings
        ensures { result.keyings ≡ empty }
    {
        KeptKeyings {
            map: HashMap::new(alloc),
        }
    }

    /// What is kept of the session with the peer.
    pub(crate) fn get(&self, peer: &[u8; 32]) -> Option<&KeptKeying>
        ensures { option_copied result ≡ get self.now.keyings peer.now }
    {
        self.map.get(&Print::of(peer))
    }

    /// Finds memory for one more.
    pub(crate) fn reserve(&mut self) -> Result<(), Memory>
        ensures ok { OnOk result (0 < self.new.spare) }
        ensures keyings { self.new.keyings ≡ self.old.keyings }
    {
        match self.map.try_reserve(1) {
            Ok(()) => Ok(()),
            Err(_) => Err(Memory),
        }
    }

    /// Keeps this of the session with the peer, in the place of what was kept of another one, where
    /// there is room. It takes no memory.
    pub(crate) fn put(&mut self, peer: &[u8; 32], keying: KeptKeying)
        requires { 0 < self.old.spare }
        ensures { self.new.keyings ≡ insert self.old.keyings peer.now keying }
    {
        match self.map.insert(Print::of(peer), keying) {
            Ok(_) => {}
            Err(_) => unreachable!(),
        }
    }

    /// Forgets what is kept of the session with the peer. It takes no memory.
    pub(crate) fn forget(&mut self, peer: &[u8; 32])
        ensures { self.new.keyings ≡ remove self.old.keyings peer.now }
    {
        let _gone = self.map.remove(&Print::of(peer));
    }
}
