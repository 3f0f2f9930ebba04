//! The secret of a group in one of its generations.

ghost use Rattle.std.specs.Prelude.{◌≡◌};

use crate::hmac_key::HmacKey;
use crate::keys::{Context, Keys, sign_key};
use std::marker::Model;

/// A secret of the group, and the number of its generation (own).
#[derive(Clone, Copy, Debug, PartialEq, Eq)]
pub struct GroupSecret {
    /// The number of the generation.
    pub generation: u64,
    /// The secret.
    pub secret: [u8; 32],
}

/// A secret of the group in its generation, hashed once for all that is made of it: the keys of
/// startup packets, the key that signs keying chunks, and the keys of sessions.
///
/// Contracts see the secret with its number.
#[derive(Drop)]
pub struct Generation {
    number: u64,
    secret: HmacKey,
    sign: HmacKey,
    startup: Keys,
}

impl Model for Generation {
    ghost use Rattle.crypto_profile.specs.declared.group.GroupSecret.{GroupSecret};
    ghost use Rattle.crypto_profile.specs.Keys.{IsHashed};

    ghost Value = { GroupSecret };

    ghost view = { λ g. record { generation = g.number; secret = g.secret } };

    ghost invariant = { λ g. IsHashed (record { generation = g.number; secret = g.secret }) g.sign
        g.startup };
}

impl Generation {
    ghost use Rattle.std.specs.Prelude.{◌≡◌, ◌==◌, ◌&&◌};
    ghost use Rattle.std.specs.Str.{bytes_eq};
    ghost use Rattle.crypto_profile.specs.Keys.{sign_key_of, startup_keys_of};

    /// The generation of this number with this secret. It takes no memory.
    pub fn of(number: u64, secret: &[u8; 32]) -> Generation
        ensures { result ≡ record { generation = number; secret = secret.now } }
    {
        let hashed = HmacKey::of(secret);
        let startup = Keys::under(&hashed, &Context::Startup { generation: number });
        Generation {
            number,
            secret: hashed,
            sign: HmacKey::of(&sign_key(secret)),
            startup,
        }
    }

    /// The number of the generation.
    pub fn number(&self) -> u64
        ensures { result ≡ self.now.generation }
    {
        self.number
    }

    /// The secret, of which the keys of sessions are made.
    pub fn secret(&self) -> &HmacKey
        ensures { result.now ≡ self.now.secret }
    {
        &self.secret
    }

    /// The key that signs keying chunks.
    pub fn sign(&self) -> &HmacKey
        ensures { result.now ≡ sign_key_of self.now.secret }
    {
        &self.sign
    }

    /// The keys of startup packets.
    pub fn startup(&self) -> &Keys
        ensures { result.now ≡ startup_keys_of self.now }
    {
        &self.startup
    }

    /// The secret with its number, which aren't hashed.
    pub fn plain(&self) -> GroupSecret
        ensures { result ≡ self.now }
    {
        GroupSecret {
            generation: self.number,
            secret: *self.secret.bytes(),
        }
    }

    /// The same generation, which isn't hashed again.
    pub fn copy(&self) -> Generation
        ensures { result ≡ self.now }
    {
        Generation {
            number: self.number,
            secret: self.secret.copy(),
            sign: self.sign.copy(),
            startup: self.startup.copy(),
        }
    }

    /// Whether it is the generation of this number with this secret.
    pub fn is(&self, group: &GroupSecret) -> bool
        ensures { result ≡ (self.now.generation == group.now.generation)
            && bytes_eq self.now.secret group.now.secret }
    {
        self.number == group.generation && *self.secret.bytes() == group.secret
    }
}
