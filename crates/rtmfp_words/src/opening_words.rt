//! The openings of `serve`.
ghost use Rattle.std.specs.Prelude.{◌≡◌, Some, None, [], MatchResult};
ghost use Rattle.rtmfp_words.specs.NodeReading.{of_digits, opening_of, openings_from, whom_of};

use crate::fault::WordsFault;
use crate::words::behind;
use identity::ServiceName;
use rtmfp_base::Message;
use rtmfp_forms::Address;
use rtmfp_script::{read_address, read_service, read_thirty_two, split_word};
use std::alloc::Global;

/// Whom an opening calls (own).
#[derive(Clone, Copy, Debug, PartialEq, Eq)]
pub enum Whom {
    /// The end with this fingerprint.
    Print([u8; 32]),
    /// An end of this service, for which it searches.
    Name(ServiceName),
}

/// An opening: whom to call, and where (own).
#[derive(Clone, Copy, Debug, PartialEq, Eq)]
pub struct OpeningWords {
    pub whom: Whom,
    /// Where it may be.
    pub at: Address,
}

/// The 32 bytes of 64 digits.
#[tactic(auto, unfolding(crate::specs::NodeReading::of_digits))]
pub(crate) fn print_of(word: &[u8]) -> Option<[u8; 32]>
    ensures { result ≡ of_digits 64 word.now }
{
    if word.len() != 64 {
        return None;
    }
    read_thirty_two(word)
}

/// Whom a word names: an end by the 64 digits of its fingerprint; or, behind `n:`, the name of a
/// service, in digits.
#[tactic(auto, unfolding(crate::specs::NodeReading::whom_of))]
fn whom_of(word: &[u8]) -> Option<Whom>
    ensures { result ≡ whom_of word.now }
{
    match behind(b"n:", word) {
        Some(digits) => Some(Whom::Name(read_service(digits)?)),
        None => Some(Whom::Print(print_of(word)?)),
    }
}

/// The opening that a word is: whom it calls, `@` and an address.
#[tactic(auto, unfolding(crate::specs::NodeReading::opening_of))]
fn opening_of(word: &[u8]) -> Option<OpeningWords>
    ensures { result ≡ opening_of word.now }
{
    let (whom, at) = split_word(b'@', word)?;
    let whom = whom_of(whom)?;
    let at = read_address(at)?;
    Some(OpeningWords { whom, at })
}

/// The openings that words are.
pub(crate) fn openings_of(alloc: Global, words: &[Message]) -> Result<Vec<OpeningWords>, WordsFault>
    ensures { MatchResult result (λ openings. openings_from [] words.now ≡ Some openings.items)
        (λ fault. fault ≡ WordsFault.Faulty → openings_from [] words.now ≡ None) }
{
    let mut openings = Vec::new(alloc);
    let mut rest = words;
    while let Some((word, after)) = rest.split_first() {
        let Some(OpeningWords { whom, at }) = opening_of(word.bytes()) else {
            return Err(WordsFault::Faulty);
        };
        if openings.push(OpeningWords { whom, at }).is_err() {
            return Err(WordsFault::Memory);
        }
        rest = after;
    }
    Ok(openings)
}
