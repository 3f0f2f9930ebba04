ghost use Rattle.std.specs.Prelude.{◌≡◌, ℕ, ◌<◌, ◌≤◌, ◌↔◌, length, take, IfOk, Ok};
ghost use Rattle.rtmfp_vlu.specs.Vlu.{VluSpells, IsCut, IsLarge};
ghost use Rattle.rtmfp_vlu.specs.Reading.{number_at};
ghost use Rattle.rtmfp_vlu.specs.Decoding.{Decodes};

use thiserror::Error;

/// Why no number of at most 64 bits stands in front of some bytes.
#[derive(Clone, Copy, Debug, PartialEq, Eq, Error)]
pub enum VluFault {
    /// The bytes end before the spelling does.
    #[error("the number is cut off")]
    Short,
    /// The spelling has more than ten bytes, or its value more than 64 bits.
    #[error("the number is too large")]
    Large,
}

/// The length of the longest spelling.
const MAX_LEN: usize = 10;

/// Reads the number that the bytes begin with, in any of its spellings, and the number of bytes
/// that it takes. What follows it is not looked at.
pub fn read_vlu(bytes: &[u8]) -> Result<(u64, usize), VluFault>
    // What is read stands there.
    ensures ok { IfOk result (λ found. (found.1 ≤ length bytes.now) ×
        VluSpells found.0 (take found.1 bytes.now)) }
    // What stands there is read.
    ensures complete { (v n : ℕ) → n ≤ length bytes.now → VluSpells v (take n bytes.now) →
        result ≡ Ok (v, n) }

    ensures short { (result ≡ Err VluFault.Short) ↔ IsCut bytes.now }
    ensures large { (result ≡ Err VluFault.Large) ↔ IsLarge bytes.now }

    // All of this as one function.
    ensures exact { result ≡ number_at bytes.now }
{
    decode(bytes)
}

fn decode(bytes: &[u8]) -> Result<(u64, usize), VluFault>
    ensures { Decodes bytes.now result }
{
    let mut value = 0u64;
    for (i, byte) in bytes.iter().enumerate() {
        // Nine groups of seven bits fit: only the tenth can be one too many.
        if i == MAX_LEN - 1 && (*byte >= 0x80 || value > u64::MAX >> 7) {
            return Err(VluFault::Large);
        }
        value = (value << 7) + u64::from(*byte & 0x7f);
        if *byte < 0x80 {
            return Ok((value, i + 1));
        }
    }
    Err(VluFault::Short)
}
