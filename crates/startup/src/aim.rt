//! What an attempt is towards.

ghost use Rattle.std.specs.Prelude.{◌≡◌, ◌≤◌, ◌∷◌, length};
ghost use Rattle.startup.specs.Aims.{aim_word, discriminator_of_aim, is_numbered, is_search, is_towards};

use identity::ServiceName;
use rtmfp_forms::Outgoing;

/// The first byte of a discriminator that names an end by its fingerprint.
const BY_PRINT: u8 = 0x01;

/// The first byte of a discriminator that looks for a service name.
const BY_NAME: u8 = 0x02;

/// What an attempt is towards (own).
#[derive(Clone, Copy, Debug, PartialEq, Eq)]
pub enum Aim {
    /// The end with this fingerprint, as the attempt with this number.
    AtPeer {
        /// The fingerprint of the peer.
        peer: [u8; 32],
        /// The number of the attempt.
        n: u64,
    },
    /// Each end whose certificate has this name. Such an attempt is a search: it has no number, and
    /// becomes an attempt towards the end that answers it first.
    ByName {
        /// The name.
        name: ServiceName,
    },
}

impl Aim {
    /// Whether it is a search.
    pub(crate) fn is_search(&self) -> bool
        ensures { result ≡ is_search self.now }
    {
        match self {
            Aim::AtPeer { .. } => false,
            Aim::ByName { .. } => true,
        }
    }

    /// Whether it is the attempt with this number.
    pub(crate) fn is_numbered(&self, number: u64) -> bool
        ensures { result ≡ is_numbered number self.now }
    {
        match self {
            Aim::AtPeer { n, .. } => *n == number,
            Aim::ByName { .. } => false,
        }
    }

    /// The word that it is found by: its number, where it has one.
    pub(crate) fn word(&self) -> Option<u64>
        ensures { result ≡ aim_word self.now }
    {
        match self {
            Aim::AtPeer { n, .. } => Some(*n),
            Aim::ByName { .. } => None,
        }
    }

    /// Whether it is towards the end with this fingerprint.
    pub(crate) fn is_towards(&self, print: &[u8; 32]) -> bool
        ensures { result ≡ is_towards print.now self.now }
    {
        match self {
            Aim::AtPeer { peer, .. } => *print == *peer,
            Aim::ByName { .. } => false,
        }
    }

    /// The discriminator that its hellos carry (33 bytes, or 2 to 65).
    pub(crate) fn discriminator(&self) -> Outgoing
        ensures bytes { result ≡ discriminator_of_aim self.now }
        ensures short { length result ≤ 65 }
    {
        match self {
            Aim::AtPeer { peer, .. } => behind(BY_PRINT, peer),
            Aim::ByName { name } => behind(BY_NAME, name.bytes()),
        }
    }
}

/// A byte, and at most 64 others behind it.
fn behind(first: u8, rest: &[u8]) -> Outgoing
    requires { length rest.now ≤ 64 }
    ensures { result ≡ first ∷ rest.now }
{
    let mut bytes = Outgoing::new(first);
    bytes.append(rest);
    bytes
}
