//! The bytes of a message that is queued.
ghost use Rattle.std.specs.Prelude.{◌≡◌, IfErr, IfOk};
ghost use Rattle.rtmfp_script.specs.Grammar.{content_bytes, counting};
ghost use Rattle.rtmfp_script.specs.Fields.{IsSomeGiven, content_of, counting_of};

use crate::bytes::hexadecimal;
use crate::fields::number32;
use rtmfp_base::{Memory, Message};
use std::alloc::{AllocError, Global};

/// The most bytes that count (own).
const MOST_COUNTED: u32 = 2_000_000;

/// The bytes of a message, as a line says them.
#[derive(Drop)]
pub enum Content {
    /// `HEX`: these.
    Given(Message),
    /// `*L`: so many, of which byte i is i modulo 251.
    Counting(u32),
}

impl Content {
    /// The bytes. Memory can be wanting for those that count alone.
    pub fn into_message(self, alloc: Global) -> Result<Message, Memory>
        ensures { IfOk result (λ message. message ≡ content_bytes self) }
    {
        match self {
            Content::Given(bytes) => Ok(bytes),
            Content::Counting(count) => Ok(Message::of(counting(alloc, count)?)),
        }
    }
}

/// So many bytes, of which byte i is i modulo 251.
#[tactic(auto, unfolding(crate::specs::Grammar::counting))]
fn counting(alloc: Global, count: u32) -> Result<Vec<u8>, AllocError>
    ensures { IfOk result (λ bytes. bytes.items ≡ counting count) }
{
    let mut bytes = Vec::with_capacity(alloc, count as usize)?;
    for at in 0..count {
        bytes.push((at % 251) as u8)?;
    }
    Ok(bytes)
}

/// The bytes that a word says: in digits, or how many there are behind a star.
#[tactic(auto, unfolding(crate::specs::Fields::content_of))]
pub(crate) fn read_content(alloc: Global, word: &[u8]) -> Result<Option<Content>, Memory>
    ensures value { IfOk result (λ content. content ≡ content_of word.now) }
    ensures memory { IfErr result (λ _. IsSomeGiven (content_of word.now)) }
{
    if !word.is_empty() && word[0] == b'*' {
        let (_, digits) = word.split_at(1);
        return Ok(counted(digits));
    }
    match hexadecimal(alloc, word)? {
        Some(bytes) => Ok(Some(Content::Given(bytes))),
        None => Ok(None),
    }
}

/// So many bytes that count, 2,000,000 at most.
#[tactic(auto, unfolding(crate::specs::Fields::counting_of))]
fn counted(digits: &[u8]) -> Option<Content>
    ensures { result ≡ counting_of digits.now }
{
    let count = number32(digits)?;
    if count > MOST_COUNTED {
        return None;
    }
    Some(Content::Counting(count))
}
