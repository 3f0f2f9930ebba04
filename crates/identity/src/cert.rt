//! Certificates (own form).

ghost use Rattle.std.specs.Prelude.{◌≡◌, ◌≤◌, ◌-◌, ◌++◌, drop, length, nat_lt, replicate, None, Ok, Err, IfSome};
ghost use Rattle.std.specs.List.{list_all};
ghost use Rattle.sha2.specs.Sha256.{sha256};
ghost use Rattle.identity.specs.Certificates.{IsCertificate, certificate_fault};

use sha2::{Digest, Sha256};
use std::marker::Model;

/// The bytes of a certificate before its name.
const INSTANCE_BYTES: usize = 16;

/// The most bytes that a certificate has: 16 instance bytes and a name of 64.
const MOST_BYTES: usize = 80;

/// Why bytes are no certificate.
#[derive(Clone, Copy, Debug, PartialEq, Eq)]
pub enum CertFault {
    /// There are fewer than 17 bytes, so the name is empty or the instance bytes aren't whole.
    Short,
    /// There are more than 80 bytes.
    LongName,
    /// A byte of the name is 0x80 or more.
    NotAscii,
}

/// A certificate: 16 instance bytes and a name of 1 to 64 ASCII bytes (own form).
///
/// Contracts see it as the list of its bytes.
#[derive(Clone, Copy, Debug, PartialEq, Eq)]
pub struct Certificate {
    bytes: [u8; MOST_BYTES],
    len: usize,
}

impl Model for Certificate {
    ghost use Rattle.std.specs.Prelude.{List, ℕ, take};
    ghost use Rattle.identity.specs.Stored.{IsStored};

    ghost Value = { List ℕ };

    ghost view = { λ c. take c.len c.bytes };

    ghost invariant = { λ c. IsStored c.bytes c.len };

    ghost use Rattle.std.specs.Prelude.{◌++◌, ◌-◌, replicate, length};
    ghost use Rattle.identity.specs.Stored.{stored_again};

    ghost inverse = { λ v. record { bytes = v ++ replicate (80 - length v) 0; len = length v } };

    ghost inverse_ok = { λ c stored. stored_again (λ bytes len. record { bytes = bytes; len = len })
        c.bytes c.len stored };
}

/// Whether each byte is an ASCII character.
pub(crate) fn is_ascii(name: &[u8]) -> bool
    ensures { result ≡ list_all (λ b. nat_lt b 0x80) name.now }
{
    name.iter().all(|b| *b < 0x80)
}

/// Why these bytes are no certificate.
fn fault_of(bytes: &[u8]) -> Option<CertFault>
    ensures { result ≡ certificate_fault bytes.now }
{
    if bytes.len() <= INSTANCE_BYTES {
        return Some(CertFault::Short);
    }
    if bytes.len() > MOST_BYTES {
        return Some(CertFault::LongName);
    }
    if is_ascii(&bytes[INSTANCE_BYTES..]) {
        None
    } else {
        Some(CertFault::NotAscii)
    }
}

/// These bytes, and zeros after them.
fn padded(bytes: &[u8]) -> [u8; MOST_BYTES]
    requires { length bytes.now ≤ 80 }
    ensures { result ≡ bytes.now ++ replicate (80 - length bytes.now) 0 }
{
    let mut kept = [0; MOST_BYTES];
    kept[..bytes.len()].copy_from_slice(bytes);
    kept
}

impl Certificate {
    /// The certificate that these bytes are.
    pub fn read(bytes: &[u8]) -> Result<Certificate, CertFault>
        ensures ok { certificate_fault bytes.now ≡ None → result ≡ Ok bytes.now }
        ensures refused { IfSome (certificate_fault bytes.now) (λ fault. result ≡ Err fault) }
    {
        match fault_of(bytes) {
            Some(fault) => Err(fault),
            None => Ok(Certificate {
                bytes: padded(bytes),
                len: bytes.len(),
            }),
        }
    }

    /// Its bytes, 17 to 80.
    pub fn bytes(&self) -> &[u8]
        ensures bytes { result.now ≡ self.now }
        ensures form { IsCertificate self.now }
    {
        &self.bytes[..self.len]
    }

    /// Its name, 1 to 64 bytes: what stands behind its instance bytes.
    pub fn name(&self) -> &[u8]
        ensures { result.now ≡ drop 16 self.now }
    {
        &self.bytes()[INSTANCE_BYTES..]
    }

    /// Its fingerprint: the SHA-256 (FIPS 180-4) of its bytes.
    pub fn print(&self) -> [u8; 32]
        ensures { result ≡ sha256 self.now }
    {
        Sha256::digest(self.bytes())
    }
}
