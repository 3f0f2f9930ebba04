//! The names and fingerprints of many ends, and searches among them.

ghost use Rattle.std.specs.Prelude.{◌≡◌, ◌++◌, ◌∷◌, [], OnErr, OnOk, false};
ghost use Rattle.std.specs.List.{list_any, position};
ghost use Rattle.std.specs.Str.{bytes_eq};
ghost use Rattle.rtmfp_text.specs.Names.{is_called_at, is_like, peer_text};

use crate::names::{Name, Named, push_peer};
use crate::text::Text;
use std::alloc::{AllocError, Global};
use std::collections::BTreeMap;
use std::marker::Model;

/// The bytes of a fingerprint that a map goes by.
const KEY_BYTES: usize = 8;

/// Ends by their numbers, from 0. No two have the same fingerprint or the same name. Contracts see
/// their list.
///
/// Each search first looks at the end that a map names for a hash of what is sought. That end is
/// compared whole, and where it isn't the one, all are gone through. So the maps save time, and no
/// answer depends on them.
#[derive(Drop)]
pub struct Directory {
    named: Vec<Named>,
    by_name: BTreeMap<u64, usize>,
    by_print: BTreeMap<u64, usize>,
}

impl Model for Directory {
    ghost use Rattle.std.specs.Prelude.{List};
    ghost use Rattle.rtmfp_text.specs.declared.names.Named.{Named};
    ghost use Rattle.rtmfp_text.specs.Names.{AreUnlike};

    ghost Value = { List Named };

    ghost view = { λ d. d.named.items };

    ghost invariant = { λ d. AreUnlike d.named.items };
}

impl Directory {
    /// No ends. It takes no memory.
    pub fn new(alloc: Global) -> Directory
        ensures { result ≡ [] }
    {
        Directory {
            named: Vec::new(alloc),
            by_name: BTreeMap::new(alloc),
            by_print: BTreeMap::new(alloc),
        }
    }

    /// The ends, by their numbers.
    pub fn as_slice(&self) -> &[Named]
        ensures { result.now ≡ self.now }
    {
        self.named.as_slice()
    }

    /// Whether one of the ends has this name, or this fingerprint.
    pub fn has_like(&self, name: &Name, print: &[u8; 32]) -> bool
        ensures { result ≡ list_any (is_like name.now print.now) self.now }
    {
        has_like(self.named.as_slice(), name, print)
    }

    /// Adds an end that has neither the name nor the fingerprint of another.
    pub fn push(&mut self, end: Named) -> Result<(), AllocError>
        requires { list_any (is_like end.name end.print) self.old ≡ false }
        ensures ok { OnOk result (self.new ≡ self.old ++ end ∷ []) }
        ensures err { OnErr result (self.new ≡ self.old) }
    {
        let number = self.named.len();
        self.by_name.insert(key_of(end.name.bytes()), number)?;
        self.by_print.insert(print_key(&end.print), number)?;
        self.named.push(end)?;
        Ok(())
    }

    /// The number of the end with this name.
    pub fn number_of(&self, name: &Name) -> Option<usize>
        ensures { result ≡ position (λ end. bytes_eq end.name name.now) self.now }
    {
        match self.by_name.get(&key_of(name.bytes())) {
            Some(number) => self.number_from(*number, name),
            None => first_called(self.named.as_slice(), name),
        }
    }

    /// The number of the end with this name, where this one may be it.
    fn number_from(&self, number: usize, name: &Name) -> Option<usize>
        ensures { result ≡ position (λ end. bytes_eq end.name name.now) self.now }
    {
        if is_called_at(self.named.as_slice(), number, name) {
            return Some(number);
        }
        first_called(self.named.as_slice(), name)
    }

    /// Adds the name of the end with this fingerprint, or the fingerprint in hexadecimal where none
    /// has it.
    pub fn push_peer(&self, print: &[u8; 32], text: &mut Text) -> Result<(), AllocError>
        ensures { OnOk result (text.new ≡ text.old ++ peer_text self.now print.now) }
    {
        match self.by_print.get(&print_key(print)) {
            Some(number) => self.push_peer_from(*number, print, text),
            None => push_peer(self.named.as_slice(), print, text),
        }
    }

    /// The same, where the end with this number may have the fingerprint.
    fn push_peer_from(
        &self,
        number: usize,
        print: &[u8; 32],
        text: &mut Text,
    ) -> Result<(), AllocError>
        ensures { OnOk result (text.new ≡ text.old ++ peer_text self.now print.now) }
    {
        match self.named.as_slice().get(number) {
            None => push_peer(self.named.as_slice(), print, text),
            Some(end) => {
                if end.print == *print {
                    return text.push_plain(end.name.bytes());
                }
                push_peer(self.named.as_slice(), print, text)
            }
        }
    }
}

/// Whether one of these ends has this name, or this fingerprint.
fn has_like(ends: &[Named], name: &Name, print: &[u8; 32]) -> bool
    ensures { result ≡ list_any (is_like name.now print.now) ends.now }
{
    let mut rest = ends;
    while let [end, others @ ..] = rest {
        if end.name.bytes() == name.bytes() || end.print == *print {
            return true;
        }
        rest = others;
    }
    false
}

/// Whether the end with this number is there, and has this name.
fn is_called_at(ends: &[Named], number: usize, name: &Name) -> bool
    ensures { result ≡ is_called_at ends.now number name.now }
{
    match ends.get(number) {
        Some(end) => end.name.bytes() == name.bytes(),
        None => false,
    }
}

/// The number of the first of these ends with this name.
fn first_called(ends: &[Named], name: &Name) -> Option<usize>
    ensures { result ≡ position (λ end. bytes_eq end.name name.now) ends.now }
{
    ends.iter().position(|end| end.name.bytes() == name.bytes())
}

/// The key of a fingerprint in its map: a hash of its first bytes.
fn print_key(print: &[u8; 32]) -> u64 {
    let (front, _) = print.split_at(KEY_BYTES);
    key_of(front)
}

/// The FNV-1a hash of bytes.
fn key_of(bytes: &[u8]) -> u64 {
    let mut key: u64 = 0xcbf2_9ce4_8422_2325;
    for byte in bytes {
        key = (key ^ u64::from(*byte)).wrapping_mul(0x0100_0000_01b3);
    }
    key
}
