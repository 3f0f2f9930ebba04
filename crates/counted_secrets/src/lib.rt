//! The secrets of a group that are counted: each is made of the number of its generation (own).
//! They are no secrets; scripts have them, so that a run is the same each time.
#![tactic(auto)]

pub mod edges;

ghost use Rattle.std.specs.Prelude.{◌≡◌};
ghost use Rattle.counted_secrets.specs.Secrets.{counted_secret, secret_after};

/// The bytes 0 before the number of a generation, in its secret.
const ZEROS: usize = 24;

/// The secret in a generation: 24 bytes 0, and the number in 8 bytes, the highest first.
pub fn counted_secret(generation: u64) -> [u8; 32]
    ensures { result ≡ counted_secret generation }
{
    let mut secret = [0; 32];
    let (_, number) = secret.split_at_mut(ZEROS);
    number.copy_from_slice(&generation.to_be_bytes());
    secret
}

/// The secret in the generation after this one. After the last number, 2^64 - 1, comes 0.
pub fn secret_after(generation: u64) -> [u8; 32]
    ensures { result ≡ secret_after generation }
{
    counted_secret(generation.wrapping_add(1))
}
