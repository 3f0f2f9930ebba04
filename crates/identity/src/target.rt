//! Targets: what a discriminator says whom it is for (own form).

ghost use Rattle.std.specs.Prelude.{◌≡◌};
ghost use Rattle.sha2.specs.Sha256.{sha256};
ghost use Rattle.identity.specs.Targets.{is_selected, selects, target_of};

use crate::cert::Certificate;
use crate::discriminator::Epd;
use crate::service::ServiceName;

/// The first byte of a discriminator that looks for a service name.
const BY_NAME: u8 = 0x02;

/// Whom a hello is for (own form): the end with a fingerprint, or each end whose certificate has a
/// name.
#[derive(Clone, Copy, Debug, PartialEq, Eq)]
pub enum Target {
    /// The byte 0x01 and the 32 bytes of a fingerprint.
    Print(Epd),
    /// The byte 0x02 and a service name.
    Name(ServiceName),
}

impl Target {
    /// The target that these bytes are; None exactly where they are neither 0x01 and 32 bytes nor
    /// 0x02 and a service name.
    pub fn read(bytes: &[u8]) -> Option<Target>
        ensures { result ≡ target_of bytes.now }
    {
        let [kind, rest @ ..] = bytes else {
            return None;
        };
        if *kind == BY_NAME {
            return match ServiceName::read(rest) {
                Some(name) => Some(Target::Name(name)),
                None => None,
            };
        }
        match Epd::read(bytes) {
            Some(epd) => Some(Target::Print(epd)),
            None => None,
        }
    }

    /// Whether it selects this certificate: whether that has its fingerprint, or its name.
    pub fn selects(&self, cert: &Certificate) -> bool
        ensures { result ≡ is_selected self.now cert.now }
    {
        match self {
            Target::Print(epd) => epd.selects(cert),
            Target::Name(name) => name.selects(cert),
        }
    }

    /// The same of a certificate with this fingerprint, which isn't hashed again.
    fn selects_known(&self, cert: &Certificate, print: &[u8; 32]) -> bool
        requires { print.now ≡ sha256 cert.now }
        ensures { result ≡ is_selected self.now cert.now }
    {
        match self {
            Target::Print(epd) => epd.print == *print,
            Target::Name(name) => name.selects(cert),
        }
    }
}

impl Certificate {
    /// Whether a discriminator selects it, by its fingerprint, which is given, or by its name. What
    /// is no target selects nothing.
    pub fn is_selected_by(&self, print: &[u8; 32], epd: &[u8]) -> bool
        requires { print.now ≡ sha256 self.now }
        ensures { result ≡ selects (target_of epd.now) self.now }
    {
        match Target::read(epd) {
            Some(target) => target.selects_known(self, print),
            None => false,
        }
    }
}
