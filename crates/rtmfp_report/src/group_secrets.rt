//! The secrets by which the datagrams of a group are read.
ghost use Rattle.std.specs.Prelude.{◌≡◌};
ghost use Rattle.std.specs.FinMap.{get};
ghost use Rattle.rtmfp_report.specs.KeptKeys.{secrets_in};

use counted_secrets::counted_secret;

/// The secrets of a group, by their generations (own).
#[derive(Clone, Copy)]
pub enum GroupSecrets {
    /// Those that are counted, in all generations.
    Counted,
    /// That of generation 0, and that of generation 1 where it is known.
    Given {
        first: [u8; 32],
        next: Option<[u8; 32]>,
    },
}

impl GroupSecrets {
    /// The secret in a generation, if there is one.
    pub(crate) fn secret(&self, generation: u64) -> Option<[u8; 32]>
        ensures { result ≡ get (secrets_in self.now) generation }
    {
        match self {
            GroupSecrets::Counted => Some(counted_secret(generation)),
            GroupSecrets::Given { first, next } => {
                if generation == 0 {
                    return Some(*first);
                }
                if generation == 1 {
                    return *next;
                }
                None
            }
        }
    }
}
