//! Service names (own form): what ends are looked for by, in place of a fingerprint.

ghost use Rattle.std.specs.Prelude.{◌≡◌, ◌≤◌, ◌-◌, ◌++◌, ◌↔◌, IsTrue, drop, length, replicate};
ghost use Rattle.identity.specs.ServiceNames.{IsServiceName, service_name_of};

use crate::cert::{Certificate, is_ascii};
use std::marker::Model;

/// The most bytes of a service name, as of a certificate's name.
const MOST_NAME_BYTES: usize = 64;

/// The name of a service: 1 to 64 ASCII bytes (own form). It selects each certificate that has this
/// name, whatever its instance bytes are.
///
/// Contracts see it as the list of its bytes.
#[derive(Clone, Copy, Debug, PartialEq, Eq)]
pub struct ServiceName {
    bytes: [u8; MOST_NAME_BYTES],
    len: usize,
}

impl Model for ServiceName {
    ghost use Rattle.std.specs.Prelude.{List, ℕ, take};
    ghost use Rattle.identity.specs.Stored.{IsNameStored};

    ghost Value = { List ℕ };

    ghost view = { λ n. take n.len n.bytes };

    ghost invariant = { λ n. IsNameStored n.bytes n.len };

    ghost use Rattle.std.specs.Prelude.{◌++◌, ◌-◌, replicate, length};
    ghost use Rattle.identity.specs.Stored.{name_stored_again};

    ghost inverse = { λ v. record { bytes = v ++ replicate (64 - length v) 0; len = length v } };

    ghost inverse_ok = { λ n stored. name_stored_again
        (λ bytes len. record { bytes = bytes; len = len }) n.bytes n.len stored };
}

/// These bytes, and zeros after them.
fn padded_name(bytes: &[u8]) -> [u8; MOST_NAME_BYTES]
    requires { length bytes.now ≤ 64 }
    ensures { result ≡ bytes.now ++ replicate (64 - length bytes.now) 0 }
{
    let mut kept = [0; MOST_NAME_BYTES];
    kept[..bytes.len()].copy_from_slice(bytes);
    kept
}

impl ServiceName {
    /// The service name that these bytes are; None exactly where they aren't 1 to 64 bytes, each
    /// below 0x80.
    pub fn read(bytes: &[u8]) -> Option<ServiceName>
        ensures { result ≡ service_name_of bytes.now }
    {
        if bytes.is_empty() || bytes.len() > MOST_NAME_BYTES || !is_ascii(bytes) {
            return None;
        }
        Some(ServiceName {
            bytes: padded_name(bytes),
            len: bytes.len(),
        })
    }

    /// Its bytes, 1 to 64.
    pub fn bytes(&self) -> &[u8]
        ensures bytes { result.now ≡ self.now }
        ensures form { IsServiceName self.now }
    {
        &self.bytes[..self.len]
    }

    /// Whether it selects this certificate: whether the certificate's name has its bytes.
    pub fn selects(&self, cert: &Certificate) -> bool
        ensures { IsTrue result ↔ (self.now ≡ drop 16 cert.now) }
    {
        *self.bytes() == *cert.name()
    }
}
