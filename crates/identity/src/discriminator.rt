//! Endpoint discriminators (own form).

ghost use Rattle.std.specs.Prelude.{◌≡◌, ◌↔◌, IsTrue};
ghost use Rattle.sha2.specs.Sha256.{sha256};
ghost use Rattle.identity.specs.Discriminators.{discriminator_of};

use crate::cert::Certificate;

/// The first byte of a discriminator that names an end by its fingerprint.
const BY_PRINT: u8 = 0x01;

/// An endpoint discriminator: the byte 0x01 and the 32 bytes of a fingerprint (own form).
#[derive(Clone, Copy, Debug, PartialEq, Eq)]
pub struct Epd {
    /// The fingerprint of the end that is meant.
    pub print: [u8; 32],
}

impl Epd {
    /// The discriminator that these bytes are; None exactly where they aren't 0x01 and 32 bytes.
    pub fn read(bytes: &[u8]) -> Option<Epd>
        ensures { result ≡ discriminator_of bytes.now }
    {
        if bytes.len() != 33 || bytes[0] != BY_PRINT {
            return None;
        }
        let mut print = [0; 32];
        print.copy_from_slice(&bytes[1..]);
        Some(Epd { print })
    }

    /// Whether it selects this certificate: whether it has its fingerprint.
    pub fn selects(&self, cert: &Certificate) -> bool
        ensures { IsTrue result ↔ (self.now.print ≡ sha256 cert.now) }
    {
        self.print == cert.print()
    }
}
