//! At which place the mapping of a call stands.

ghost use Rattle.std.specs.Prelude.{◌≡◌, length, unwrap_or};
ghost use Rattle.std.specs.HashMap.{get};
ghost use Rattle.translators.specs.Mappings.{from_to, key_of};
ghost use Rattle.translators.specs.Places.{is_same_key};

use crate::rule::Rule;
use rtmfp_forms::Address;
use std::collections::HashMap;

/// What the mapping of a call is found by: the inner place, and the other host, where mappings are
/// dependent.
#[derive(Clone, Copy, PartialEq, Eq, Hash)]
pub(crate) struct Key {
    host: [u8; 16],
    port: u16,
    to: [u8; 16],
}

impl Key {
    pub fn of(rule: Rule, inner: &Address, to: &Address) -> Key
        ensures { result ≡ key_of rule (from_to inner.now to.now) }
    {
        let to = match rule {
            Rule::Independent => [0; 16],
            Rule::Dependent => to.host,
        };
        Key {
            host: inner.host,
            port: inner.port,
            to,
        }
    }
}

/// The place under this key, or else the next one.
pub(crate) fn place_or(places: &HashMap<Key, usize>, key: &Key, next: usize) -> usize
    ensures { result ≡ unwrap_or (get is_same_key places.now key.now) next }
{
    match places.get(key) {
        Some(place) => *place,
        None => next,
    }
}
