//! Secrets of a group, by their generations.

ghost use Rattle.std.specs.Prelude.{◌≡◌, IfOk, OnOk, OnErr, IfSome, IfNone, Some, None};
ghost use Rattle.std.specs.FinMap.{empty, get, insert};
ghost use Rattle.log_packets.specs.Secrets.{may_have, with_secret};

use crypto_profile::{Generation, GroupSecret};
use rtmfp_base::Memory;
use std::alloc::Global;
use std::collections::HashMap;
use std::marker::Model;

/// Secrets of a group, by their generations, each hashed once (own). Each is found by one look at a
/// map.
///
/// Contracts see a finite map.
#[derive(Drop)]
pub struct SecretMap {
    map: HashMap<u64, Generation>,
}

impl Model for SecretMap {
    ghost use Rattle.std.specs.Coded.{coded_list, coded_ℕ};
    ghost use Rattle.std.specs.FinMap.{code};
    ghost use Rattle.endpoint_laws.specs.Contexts.{Secrets};
    ghost use Rattle.log_packets.specs.Secrets.{AreNumbered, secrets_of};

    ghost Value = { Secrets };

    ghost coded = { code coded_ℕ (coded_list coded_ℕ) };

    ghost view = { λ s. secrets_of s.map.entries };

    ghost invariant = { λ s. AreNumbered s.map.entries };
}

impl SecretMap {
    /// None. It takes no memory.
    pub fn new(alloc: Global) -> SecretMap
        ensures { result ≡ empty }
    {
        SecretMap {
            map: HashMap::new(alloc),
        }
    }

    /// The secret of a generation.
    pub fn get(&self, generation: u64) -> Option<&Generation>
        ensures some { IfSome result (λ group. get self.now generation ≡ Some group.now.secret) }
        ensures number { IfSome result (λ group. group.now.generation ≡ generation) }
        ensures none { IfNone result (get self.now generation ≡ None) }
    {
        self.map.get(&generation)
    }

    /// Adds the secret of a generation, where none is known. The first secret of a number stays;
    /// the answer tells whether it is this one.
    pub fn add(&mut self, generation: u64, secret: &[u8; 32]) -> Result<bool, Memory>
        ensures is { IfOk result (λ is. is ≡ may_have (get self.old generation) secret.now) }
        ensures more { OnOk result (self.new ≡ with_secret generation secret.now self.old) }
        ensures err { OnErr result (self.new ≡ self.old) }
    {
        if let Some(known) = self.get(generation) {
            return Ok(*known.secret().bytes() == *secret);
        }
        self.put(generation, secret)?;
        Ok(true)
    }

    /// Puts the secret of a generation in.
    fn put(&mut self, generation: u64, secret: &[u8; 32]) -> Result<(), Memory>
        ensures more { OnOk result (self.new ≡ insert self.old generation secret.now) }
        ensures err { OnErr result (self.new ≡ self.old) }
    {
        let Ok(_) = self
            .map
            .insert(generation, Generation::of(generation, secret))
        else {
            return Err(Memory);
        };
        Ok(())
    }
}
