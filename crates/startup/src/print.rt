//! A fingerprint as the key of a map.

ghost use Rattle.std.specs.Prelude.{ℕ, List, [], ◌∷◌, ◌≡◌};
ghost use Rattle.std.specs.Cmp.Lexicographic.{bytes_decides};
ghost use Rattle.std.specs.Hash.{same_Alike};

use std::hash::{Hash, Hasher};
use std::marker::Model;

/// A fingerprint as a key. Its bytes are hashed at once, and not one by one as those of an array.
#[derive(Clone, Copy, PartialEq, Eq)]
pub(crate) struct Print {
    bytes: [u8; 32],
}

impl Model for Print {
    ghost Value = { List ℕ };

    ghost view = { λ print. print.bytes };

    ghost inverse = { λ bytes. record { bytes = bytes } };
}

impl Print {
    pub(crate) fn of(bytes: &[u8; 32]) -> Print
        ensures { result ≡ bytes.now }
    {
        Print { bytes: *bytes }
    }
}

impl Hash for Print {
    ghost hash_input = { λ print. print ∷ [] };

    ghost respects_eq = { (same_Alike (λ print. print ∷ []) bytes_decides).fed };

    fn hash<H: Hasher>(&self, state: &mut H) {
        state.write(&self.bytes);
    }
}
