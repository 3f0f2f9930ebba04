//! Bytes in hexadecimal digits.
ghost use Rattle.std.specs.Prelude.{◌≡◌, ◌<◌, ◌^◌, length, IfErr, IfOk, IsSome};
ghost use Rattle.std.specs.List.{list_all};
ghost use Rattle.rtmfp_script.specs.Fields.{is_lower_digit, digits_of, is_hyphen, bytes_of, hexadecimal_of, service_of};

use hex::FromHexError;
use identity::ServiceName;
use rtmfp_base::{Memory, Message};
use std::alloc::Global;

/// The bytes that a word has in digits, at most so many; a hyphen stands for none.
#[tactic(auto, unfolding(crate::specs::Fields::bytes_of))]
pub(crate) fn bytes(alloc: Global, word: &[u8], most: usize) -> Result<Option<Message>, Memory>
    requires { most < 2 ^ 32 }
    ensures value { IfOk result (λ bytes. bytes ≡ bytes_of most word.now) }
    ensures memory { IfErr result (λ _. IsSome (bytes_of most word.now)) }
{
    if is_hyphen(word) {
        return Ok(Some(Message::of(Vec::new(alloc))));
    }
    if word.is_empty() || word.len() > 2 * most {
        return Ok(None);
    }
    digits(alloc, word)
}

/// The bytes that a word has in digits, however many; a hyphen stands for none.
#[tactic(auto, unfolding(crate::specs::Fields::hexadecimal_of))]
pub(crate) fn hexadecimal(alloc: Global, word: &[u8]) -> Result<Option<Message>, Memory>
    ensures value { IfOk result (λ bytes. bytes ≡ hexadecimal_of word.now) }
    ensures memory { IfErr result (λ _. IsSome (hexadecimal_of word.now)) }
{
    if is_hyphen(word) {
        return Ok(Some(Message::of(Vec::new(alloc))));
    }
    if word.is_empty() {
        return Ok(None);
    }
    digits(alloc, word)
}

/// The bytes of an even number of digits.
#[tactic(auto, unfolding(crate::specs::Fields::digits_of))]
pub(crate) fn digits(alloc: Global, word: &[u8]) -> Result<Option<Message>, Memory>
    ensures value { IfOk result (λ bytes. bytes ≡ digits_of word.now) }
    ensures memory { IfErr result (λ _. IsSome (digits_of word.now)) }
{
    if word.len() % 2 != 0 || !all_lower(word) {
        return Ok(None);
    }
    match hex::decode(alloc, word) {
        Ok(bytes) => Ok(Some(Message::of(bytes))),
        Err(FromHexError::OutOfMemory) => Err(Memory),
        Err(_) => Ok(None),
    }
}

/// The 16 bytes of 32 digits.
#[tactic(auto, unfolding(crate::specs::Fields::digits_of))]
pub(crate) fn sixteen(word: &[u8]) -> Option<[u8; 16]>
    requires { length word.now ≡ 32 }
    ensures { result ≡ digits_of word.now }
{
    if !all_lower(word) {
        return None;
    }
    let mut bytes = [0; 16];
    match hex::decode_to_slice(word, &mut bytes) {
        Ok(()) => Some(bytes),
        Err(_) => None,
    }
}

/// The 32 bytes of 64 digits.
#[tactic(auto, unfolding(crate::specs::Fields::digits_of))]
pub(crate) fn thirty_two(word: &[u8]) -> Option<[u8; 32]>
    requires { length word.now ≡ 64 }
    ensures { result ≡ digits_of word.now }
{
    if !all_lower(word) {
        return None;
    }
    let mut bytes = [0; 32];
    match hex::decode_to_slice(word, &mut bytes) {
        Ok(()) => Some(bytes),
        Err(_) => None,
    }
}

/// The most bytes of a service's name.
const MOST_SERVICE_BYTES: usize = 64;

/// The name of a service that a word has in digits.
#[tactic(auto, unfolding(crate::specs::Fields::service_of, crate::specs::Fields::digits_of))]
pub(crate) fn service(word: &[u8]) -> Option<ServiceName>
    ensures { result ≡ service_of word.now }
{
    if word.len() > 2 * MOST_SERVICE_BYTES {
        return None;
    }
    if word.len() % 2 != 0 || !all_lower(word) {
        return None;
    }
    let mut room = [0; MOST_SERVICE_BYTES];
    let (bytes, _) = room.split_at_mut(word.len() / 2);
    match hex::decode_to_slice(word, bytes) {
        Ok(()) => ServiceName::read(bytes),
        Err(_) => None,
    }
}

pub(crate) fn is_hyphen(word: &[u8]) -> bool
    ensures { result ≡ is_hyphen word.now }
{
    match word {
        [byte] => *byte == b'-',
        _ => false,
    }
}

fn all_lower(word: &[u8]) -> bool
    ensures { result ≡ list_all is_lower_digit word.now }
{
    word.iter().all(|b| is_lower_digit(*b))
}

fn is_lower_digit(byte: u8) -> bool
    ensures { result ≡ is_lower_digit byte }
{
    byte.is_ascii_digit() || (byte >= b'a' && byte <= b'f')
}
