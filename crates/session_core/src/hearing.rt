//! Why a sealed part isn't heard, and the numbers that sealed parts carry.

ghost use Rattle.std.specs.Prelude.{◌≡◌, ◌≤◌, length};
ghost use Rattle.std.specs.Int.{from_be_bytes};
ghost use Rattle.crypto_profile.specs.Sealing.{number_of};
ghost use Rattle.session_core.specs.Hearing.{count_of, is_session_number, opens_under};

use crypto_profile::{CIPHERED_AT, Keys, TAG_LEN, open_refusal, same_bytes};
use thiserror::Error;

const ZEROS: usize = 8;

/// Why a sealed part isn't heard in a session.
#[derive(Clone, Copy, Debug, PartialEq, Eq, Error)]
pub enum Unheard {
    /// It has fewer than 32 bytes.
    #[error("shorter than a sealed part")]
    Short,
    /// It doesn't open in the session's context towards this end.
    #[error("a tag that isn't right")]
    BadTag,
    /// It opens, and its number was taken before or is too old.
    #[error("a number that was taken or is too old")]
    Repeated,
}

/// The number that a sealed part carries.
fn number_of(part: &[u8]) -> &[u8]
    requires { 32 ≤ length part.now }
    ensures value { result.now ≡ number_of part.now }
    ensures length { length result.now ≡ 16 }
{
    &part[TAG_LEN..CIPHERED_AT]
}

/// Whether the number is one of a session's packets.
pub(crate) fn has_session_number(part: &[u8]) -> bool
    requires { 32 ≤ length part.now }
    ensures { result ≡ is_session_number (number_of part.now) }
{
    same_bytes(&number_of(part)[..ZEROS], &[0; ZEROS])
}

/// The count that the number has.
pub(crate) fn count_of(part: &[u8]) -> u64
    requires { 32 ≤ length part.now }
    ensures { result ≡ count_of part.now }
{
    let mut count = [0; 8];
    count.copy_from_slice(&number_of(part)[ZEROS..]);
    u64::from_be_bytes(count)
}

/// Whether a part opens under keys and a session ID, with a number of a session. The number is
/// tested before the tag, which costs most.
pub(crate) fn opens_under(keys: &Keys, sid: u32, part: &[u8]) -> bool
    ensures { result ≡ opens_under keys.now sid part.now }
{
    if part.len() < CIPHERED_AT {
        return false;
    }
    if !has_session_number(part) {
        return false;
    }
    open_refusal(keys, sid, part).is_none()
}
