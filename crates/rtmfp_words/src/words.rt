//! The next word, and the texts of words.
ghost use Rattle.std.specs.Prelude.{◌≡◌, map, string_bytes, None, Some, MatchOption};
ghost use Rattle.rtmfp_words.specs.Reading.{head_of, is_empty, behind_of};

/// The next word, and the words behind it.
pub(crate) fn next_word(words: &[String]) -> Option<(&[u8], &[String])>
    ensures { MatchOption result (head_of (map string_bytes words.now)
        ≡ None) (λ p. head_of (map string_bytes words.now)
        ≡ Some (p.0.now, map string_bytes p.1.now)) }
{
    match words.split_first() {
        Some((word, rest)) => Some((word.as_bytes(), rest)),
        None => None,
    }
}

/// Whether there is no further word.
pub(crate) fn is_end(words: &[String]) -> bool
    ensures { result ≡ is_empty (map string_bytes words.now) }
{
    match next_word(words) {
        Some(_) => false,
        None => true,
    }
}

/// What stands in a word behind this front.
pub(crate) fn behind<'a>(front: &[u8], word: &'a [u8]) -> Option<&'a [u8]>
    ensures { MatchOption result (behind_of front.now word.now
        ≡ None) (λ rest. behind_of front.now word.now ≡ Some rest.now) }
{
    word.strip_prefix(front)
}
