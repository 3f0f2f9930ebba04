//! Nonces, and whether they are all different.

ghost use Rattle.std.specs.Prelude.{◌≡◌, ◌∷◌, ℕ, List, [], OnOk, OnErr};
ghost use Rattle.std.specs.List.{list_any};
ghost use Rattle.std.specs.Str.{bytes_eq};
ghost use Rattle.log_digest.specs.Nonces.{AreNonces, HasOneMore};

use rtmfp_base::Memory;
use std::alloc::Global;
use std::collections::HashSet;
use std::marker::Model;

/// The nonces that were stated, by one end or by all (own). Whether one is among them is one look
/// at a set.
///
/// Contracts see them in no order, each once, and whether each of those that were added was new.
#[derive(Drop)]
pub struct Nonces {
    set: HashSet<[u8; 16]>,
    different: bool,
}

impl Model for Nonces {
    ghost use Rattle.log_digest.specs.Nonces.{NonceSet, nonce_set_code};

    ghost Value = { NonceSet };

    ghost coded = { nonce_set_code };

    ghost view = { λ n. record { each = n.set.keys; different = n.different } };
}

impl Nonces {
    /// None. It takes no memory.
    pub fn new(alloc: Global) -> Nonces
        ensures { AreNonces [] result }
    {
        Nonces {
            set: HashSet::new(alloc),
            different: true,
        }
    }

    /// Whether a nonce is among them.
    pub fn has(&self, nonce: &[u8; 16]) -> bool
        ensures { result ≡ list_any (bytes_eq nonce.now) self.now.each }
    {
        self.set.contains(nonce)
    }

    /// Whether each that was added was new.
    pub fn different(&self) -> bool
        ensures { result ≡ self.now.different }
    {
        self.different
    }

    /// Puts one in.
    fn put(&mut self, nonce: &[u8; 16]) -> Result<(), Memory>
        ensures more { OnOk result (HasOneMore nonce.now self.old self.new) }
        ensures err { OnErr result (self.new ≡ self.old) }
    {
        let Ok(added) = self.set.insert(*nonce) else {
            return Err(Memory);
        };
        self.different = self.different && added;
        Ok(())
    }

    /// Adds one.
    pub fn add(&mut self, nonce: &[u8; 16]) -> Result<(), Memory>
        ensures more { OnOk result (HasOneMore nonce.now self.old self.new) }
        ensures nonces { (nonces : List (List ℕ)) → AreNonces nonces self.old →
            OnOk result (AreNonces (nonce.now ∷ nonces) self.new) }
        ensures err { OnErr result (self.new ≡ self.old) }
    {
        self.put(nonce)?;
        Ok(())
    }
}
