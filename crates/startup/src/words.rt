//! The words of what attempts are found by.

ghost use Rattle.std.specs.Prelude.{◌≡◌, ◌≤◌, length};
ghost use Rattle.startup.specs.Words.{cookie_word, word_of};

use sha2::{Digest, Sha256};

/// How many bytes are a word.
const WORD: usize = 8;

/// The word of a tag: its first 8 bytes.
pub(crate) fn word_of(tag: &[u8]) -> u64
    requires { 8 ≤ length tag.now }
    ensures { result ≡ word_of tag.now }
{
    let mut first = [0u8; WORD];
    first.copy_from_slice(&tag[..WORD]);
    u64::from_be_bytes(first)
}

/// The word of a cookie, which is hashed for it.
pub(crate) fn cookie_word(cookie: &[u8]) -> u64
    requires { length cookie.now ≤ 128 }
    ensures { result ≡ cookie_word cookie.now }
{
    let print = Sha256::digest(cookie);
    word_of(&print)
}
