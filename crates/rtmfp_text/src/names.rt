//! The names that texts give to ends.
ghost use Rattle.std.specs.Prelude.{◌≡◌, ◌++◌, ◌≤◌, ◌↔◌, [], length, IfSome, IsSome, OnOk};
ghost use Rattle.rtmfp_text.specs.Names.{peer_text};

use crate::text::Text;
use std::alloc::AllocError;
use std::marker::Model;

/// The most bytes of a name (own).
const LONGEST: usize = 16;

/// A name of at most 16 bytes.
#[derive(Drop)]
pub struct Name {
    bytes: [u8; LONGEST],
    length: usize,
}

impl Model for Name {
    ghost use Rattle.std.specs.Prelude.{◌≤◌, List, ℕ, take};

    ghost Value = { List ℕ };

    ghost view = { λ n. take n.length n.bytes };

    ghost invariant = { λ n. n.length ≤ 16 };
}

impl Name {
    /// The name with these bytes; none exactly where there are more than 16.
    pub fn new(bytes: &[u8]) -> Option<Name>
        ensures fits { IsSome result ↔ (length bytes.now ≤ 16) }
        ensures value { IfSome result (λ name. name ≡ bytes.now) }
    {
        if bytes.len() > LONGEST {
            return None;
        }
        let mut kept = [0; LONGEST];
        let (front, _) = kept.split_at_mut(bytes.len());
        front.copy_from_slice(bytes);
        Some(Name {
            bytes: kept,
            length: bytes.len(),
        })
    }

    /// No name.
    pub fn none() -> Name
        ensures { result ≡ [] }
    {
        Name {
            bytes: [0; LONGEST],
            length: 0,
        }
    }

    /// The same name again.
    pub fn again(&self) -> Name
        ensures { result ≡ self.now }
    {
        Name {
            bytes: self.bytes,
            length: self.length,
        }
    }

    /// Its bytes.
    pub fn bytes(&self) -> &[u8]
        ensures { result.now ≡ self.now }
    {
        let (front, _) = self.bytes.split_at(self.length);
        front
    }
}

/// The fingerprint of an end, and its name.
#[derive(Drop)]
pub struct Named {
    /// The fingerprint of its certificate.
    pub print: [u8; 32],
    /// What texts call it.
    pub name: Name,
}

/// Adds the name of the end with this fingerprint, or the fingerprint in hexadecimal where none of
/// these has it.
pub(crate) fn push_peer(ends: &[Named], print: &[u8; 32], text: &mut Text) -> Result<(), AllocError>
    ensures { OnOk result (text.new ≡ text.old ++ peer_text ends.now print.now) }
{
    let mut rest = ends;
    while let [end, others @ ..] = rest {
        if end.print == *print {
            return text.push_plain(end.name.bytes());
        }
        rest = others;
    }
    text.push_hex(print)
}
