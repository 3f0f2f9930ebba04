//! The words of a line, each read whole, alone or in front of others.
ghost use Rattle.std.specs.Prelude.{◌≡◌, ◌==◌, ◌/◌, ◌^◌, true, false, length, nat_lt, Some, None, MatchOption, IfErr, IfOk, IsSome};
ghost use Rattle.std.specs.List.{list_all};
ghost use Rattle.rtmfp_script.specs.Grammar.{is_name_byte};
ghost use Rattle.rtmfp_script.specs.Fields.{address_of, digits_of, hexadecimal_of, is_hyphen, is_lower_digit, is_name, name_of, number_below, number_of};
ghost use Rattle.audit_text.specs.Fields.{certificate_in, certificate_of, first_by, of_digits, sender_of, service_of, why_of};

use glare_core::Why;
use identity::{Certificate, ServiceName};
use rtmfp_base::{Memory, Message};
use rtmfp_forms::Address;
use rtmfp_script::{
    read_address, read_digits, read_number, read_sixteen, read_thirty_two, split_word,
};
use rtmfp_text::Name;
use std::alloc::Global;

/// The most bytes of a certificate, and of any word that is kept without memory.
const MOST_KEPT: usize = 80;

/// The most digits of a certificate.
const CERT_DIGITS: usize = 160;

/// The most digits of a service name.
const SERVICE_DIGITS: usize = 128;

// ---- words alone

/// The number below 2^64 that a word is.
pub(crate) fn number(word: &[u8]) -> Option<u64>
    ensures { result ≡ number_of word.now }
{
    read_number(word)
}

/// A number of 32 bits.
#[tactic(auto, unfolding(rtmfp_script::specs::Fields::number_below))]
pub(crate) fn number32(word: &[u8]) -> Option<u32>
    ensures { result ≡ number_below (2 ^ 32) word.now }
{
    u32::try_from(number(word)?).ok()
}

/// The 32 bytes of 64 digits.
#[tactic(auto, unfolding(crate::specs::Fields::of_digits))]
pub(crate) fn print(word: &[u8]) -> Option<[u8; 32]>
    ensures { result ≡ of_digits 64 word.now }
{
    if word.len() != 64 {
        return None;
    }
    read_thirty_two(word)
}

/// The 16 bytes of 32 digits.
#[tactic(auto, unfolding(crate::specs::Fields::of_digits))]
pub(crate) fn nonce(word: &[u8]) -> Option<[u8; 16]>
    ensures { result ≡ of_digits 32 word.now }
{
    if word.len() != 32 {
        return None;
    }
    read_sixteen(word)
}

/// The name that a word is.
#[tactic(auto, unfolding(rtmfp_script::specs::Fields::name_of))]
fn name(word: &[u8]) -> Option<Name>
    ensures { result ≡ name_of word.now }
{
    if !is_name(word) {
        return None;
    }
    Name::new(word)
}

fn is_name(word: &[u8]) -> bool
    ensures { result ≡ is_name word.now }
{
    !word.is_empty() && word.len() <= 16 && all_name_bytes(word)
}

fn all_name_bytes(word: &[u8]) -> bool
    ensures { result ≡ list_all is_name_byte word.now }
{
    word.iter().all(|b| is_name_byte(*b))
}

fn is_name_byte(byte: u8) -> bool
    ensures { result ≡ is_name_byte byte }
{
    byte.is_ascii_lowercase() || byte.is_ascii_digit()
}

/// Writes the bytes of an even number of lower-case digits. Says whether the word is such digits.
#[tactic(auto, unfolding(rtmfp_script::specs::Fields::digits_of))]
fn decode(word: &[u8], bytes: &mut [u8]) -> bool
    requires { length bytes.old ≡ length word.now / 2 }
    ensures yes { result ≡ true → digits_of word.now ≡ Some bytes.new }
    ensures no { result ≡ false → digits_of word.now ≡ None }
{
    if word.len() % 2 != 0 || !all_lower(word) {
        return false;
    }
    match hex::decode_to_slice(word, bytes) {
        Ok(()) => true,
        Err(_) => false,
    }
}

fn all_lower(word: &[u8]) -> bool
    ensures { result ≡ list_all is_lower_digit word.now }
{
    word.iter().all(|b| is_lower_digit(*b))
}

fn is_lower_digit(byte: u8) -> bool
    ensures { result ≡ is_lower_digit byte }
{
    byte.is_ascii_digit() || (byte >= b'a' && byte <= b'f')
}

/// The service name of digits.
#[tactic(auto, unfolding(crate::specs::Fields::service_of))]
pub(crate) fn service(word: &[u8]) -> Option<ServiceName>
    ensures { result ≡ service_of word.now }
{
    if word.len() > SERVICE_DIGITS {
        return None;
    }
    let mut kept = [0; MOST_KEPT];
    let (bytes, _) = kept.split_at_mut(word.len() / 2);
    if !decode(word, bytes) {
        return None;
    }
    ServiceName::read(bytes)
}

/// The certificate of digits.
#[tactic(auto, unfolding(crate::specs::Fields::certificate_of))]
pub(crate) fn certificate(word: &[u8]) -> Option<Certificate>
    ensures { result ≡ certificate_of word.now }
{
    if word.len() > CERT_DIGITS {
        return None;
    }
    let mut kept = [0; MOST_KEPT];
    let (bytes, _) = kept.split_at_mut(word.len() / 2);
    if !decode(word, bytes) {
        return None;
    }
    certificate_in(bytes)
}

/// The certificate that bytes are.
#[tactic(auto, unfolding(crate::specs::Fields::certificate_in))]
fn certificate_in(bytes: &[u8]) -> Option<Certificate>
    ensures { result ≡ certificate_in bytes.now }
{
    match Certificate::read(bytes) {
        Ok(cert) => Some(cert),
        Err(_) => None,
    }
}

/// The bytes that a word has in digits; a hyphen stands for none.
#[tactic(auto, unfolding(rtmfp_script::specs::Fields::hexadecimal_of))]
pub(crate) fn hexadecimal(alloc: Global, word: &[u8]) -> Result<Option<Message>, Memory>
    ensures value { IfOk result (λ bytes. bytes ≡ hexadecimal_of word.now) }
    ensures memory { IfErr result (λ _. IsSome (hexadecimal_of word.now)) }
{
    if is_hyphen(word) {
        return Ok(Some(Message::of(Vec::new(alloc))));
    }
    if word.is_empty() {
        return Ok(None);
    }
    read_digits(alloc, word)
}

fn is_hyphen(word: &[u8]) -> bool
    ensures { result ≡ is_hyphen word.now }
{
    match word {
        [byte] => *byte == b'-',
        _ => false,
    }
}

/// The reason that a word names.
#[tactic(auto, unfolding(crate::specs::Fields::why_of))]
pub(crate) fn why(word: &[u8]) -> Option<Why>
    ensures { result ≡ why_of word.now }
{
    if word == b"cancelled".as_slice() {
        return Some(Why::Cancelled);
    }
    if word == b"expired".as_slice() {
        return Some(Why::Expired);
    }
    if word == b"glare".as_slice() {
        return Some(Why::Glare);
    }
    if word == b"override".as_slice() {
        return Some(Why::Override);
    }
    if word == b"unconfirmed".as_slice() {
        return Some(Why::Unconfirmed);
    }
    if word == b"near".as_slice() {
        return Some(Why::Near);
    }
    if word == b"far".as_slice() {
        return Some(Why::Far);
    }
    if word == b"idle".as_slice() {
        return Some(Why::Idle);
    }
    None
}

/// Whether the packet goes to the responder, by who sends it.
#[tactic(auto, unfolding(crate::specs::Fields::sender_of))]
fn sender(word: &[u8]) -> Option<bool>
    ensures { result ≡ sender_of word.now }
{
    if word == b"i".as_slice() {
        return Some(true);
    }
    if word == b"r".as_slice() {
        return Some(false);
    }
    None
}

// ---- words in front of others

#[tactic(auto, unfolding(crate::specs::Fields::first_by))]
pub(crate) fn first_name(rest: &[u8]) -> Option<(Name, &[u8])>
    ensures { MatchOption result (first_by name_of rest.now ≡ None)
        (λ parts. first_by name_of rest.now ≡ Some (parts.0, parts.1.now)) }
{
    let (word, rest) = split_word(b' ', rest)?;
    Some((name(word)?, rest))
}

#[tactic(auto, unfolding(crate::specs::Fields::first_by))]
pub(crate) fn first_number(rest: &[u8]) -> Option<(u64, &[u8])>
    ensures { MatchOption result (first_by number_of rest.now ≡ None)
        (λ parts. first_by number_of rest.now ≡ Some (parts.0, parts.1.now)) }
{
    let (word, rest) = split_word(b' ', rest)?;
    Some((number(word)?, rest))
}

#[tactic(auto, unfolding(crate::specs::Fields::first_by))]
pub(crate) fn first_number32(rest: &[u8]) -> Option<(u32, &[u8])>
    ensures { MatchOption result (first_by (number_below (2 ^ 32)) rest.now ≡ None)
        (λ parts. first_by (number_below (2 ^ 32)) rest.now ≡ Some (parts.0, parts.1.now)) }
{
    let (word, rest) = split_word(b' ', rest)?;
    Some((number32(word)?, rest))
}

#[tactic(auto, unfolding(crate::specs::Fields::first_by))]
pub(crate) fn first_print(rest: &[u8]) -> Option<([u8; 32], &[u8])>
    ensures { MatchOption result (first_by (of_digits 64) rest.now ≡ None)
        (λ parts. first_by (of_digits 64) rest.now ≡ Some (parts.0, parts.1.now)) }
{
    let (word, rest) = split_word(b' ', rest)?;
    Some((print(word)?, rest))
}

#[tactic(auto, unfolding(crate::specs::Fields::first_by))]
pub(crate) fn first_nonce(rest: &[u8]) -> Option<([u8; 16], &[u8])>
    ensures { MatchOption result (first_by (of_digits 32) rest.now ≡ None)
        (λ parts. first_by (of_digits 32) rest.now ≡ Some (parts.0, parts.1.now)) }
{
    let (word, rest) = split_word(b' ', rest)?;
    Some((nonce(word)?, rest))
}

#[tactic(auto, unfolding(crate::specs::Fields::first_by))]
pub(crate) fn first_address(rest: &[u8]) -> Option<(Address, &[u8])>
    ensures { MatchOption result (first_by address_of rest.now ≡ None)
        (λ parts. first_by address_of rest.now ≡ Some (parts.0, parts.1.now)) }
{
    let (word, rest) = split_word(b' ', rest)?;
    Some((read_address(word)?, rest))
}

#[tactic(auto, unfolding(crate::specs::Fields::first_by))]
pub(crate) fn first_service(rest: &[u8]) -> Option<(ServiceName, &[u8])>
    ensures { MatchOption result (first_by service_of rest.now ≡ None)
        (λ parts. first_by service_of rest.now ≡ Some (parts.0, parts.1.now)) }
{
    let (word, rest) = split_word(b' ', rest)?;
    Some((service(word)?, rest))
}

#[tactic(auto, unfolding(crate::specs::Fields::first_by))]
pub(crate) fn first_sender(rest: &[u8]) -> Option<(bool, &[u8])>
    ensures { MatchOption result (first_by sender_of rest.now ≡ None)
        (λ parts. first_by sender_of rest.now ≡ Some (parts.0, parts.1.now)) }
{
    let (word, rest) = split_word(b' ', rest)?;
    Some((sender(word)?, rest))
}
