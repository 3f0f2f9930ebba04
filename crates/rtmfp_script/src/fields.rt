//! The fields of a line, each read whole.
ghost use Rattle.std.specs.Prelude.{◌≡◌, ◌<◌, ◌^◌, ◌*◌, ◌%◌, ◌==◌, ℕ, nat_lt, Some, None, MatchOption, IfSome};
ghost use Rattle.std.specs.Fmt.{decimal};
ghost use Rattle.std.specs.List.{list_all};
ghost use Rattle.rtmfp_script.specs.Grammar.{is_name_byte};
ghost use Rattle.rtmfp_script.specs.Fields.{split_of, is_name, name_of, is_cert, cert_of, with_digit, number_from, is_unwritten, number_of, number_below, limit_by};

use crate::bytes::is_hyphen;
use identity::Certificate;
use memchr::memchr;
use rtmfp_text::Name;

/// What stands in front of the first such byte, and what stands behind it.
pub(crate) fn split(byte: u8, text: &[u8]) -> Option<(&[u8], &[u8])>
    ensures { MatchOption result (split_of byte text.now ≡ None) (λ parts. split_of byte text.now
        ≡ Some (parts.0.now, parts.1.now)) }
{
    match memchr(byte, text) {
        Some(at) => {
            let (front, rest) = text.split_at(at);
            let (_, back) = rest.split_at(1);
            Some((front, back))
        }
        None => None,
    }
}

/// The name that a word is.
#[tactic(auto, unfolding(crate::specs::Fields::name_of))]
pub(crate) fn name(word: &[u8]) -> Option<Name>
    ensures { result ≡ name_of word.now }
{
    if !is_name(word) {
        return None;
    }
    Name::new(word)
}

fn is_name(word: &[u8]) -> bool
    ensures { result ≡ is_name word.now }
{
    !word.is_empty() && word.len() <= 16 && all_name_bytes(word)
}

fn all_name_bytes(word: &[u8]) -> bool
    ensures { result ≡ list_all is_name_byte word.now }
{
    word.iter().all(|b| is_name_byte(*b))
}

fn is_name_byte(byte: u8) -> bool
    ensures { result ≡ is_name_byte byte }
{
    byte.is_ascii_lowercase() || byte.is_ascii_digit()
}

/// The certificate that the rest of a line is.
#[tactic(auto, unfolding(crate::specs::Fields::cert_of))]
pub(crate) fn cert(rest: &[u8]) -> Option<Certificate>
    ensures { result ≡ cert_of rest.now }
{
    if !is_cert(rest) {
        return None;
    }
    Certificate::read(rest).ok()
}

fn is_cert(rest: &[u8]) -> bool
    ensures { result ≡ is_cert rest.now }
{
    rest.len() >= 17 && rest.len() <= 80 && all_ascii(rest)
}

fn all_ascii(rest: &[u8]) -> bool
    ensures { result ≡ list_all (λ b. nat_lt b 0x80) rest.now }
{
    rest.iter().all(|b| *b < 0x80)
}

/// The number with one digit more behind it.
#[tactic(auto, unfolding(crate::specs::Fields::with_digit))]
fn with_digit(number: u64, digit: u8) -> Option<u64>
    ensures { result ≡ with_digit number digit }
{
    if !digit.is_ascii_digit() {
        return None;
    }
    number.checked_mul(10)?.checked_add(u64::from(digit - b'0'))
}

/// The number that these digits write.
#[tactic(auto, unfolding(crate::specs::Fields::number_from))]
fn number_from(digits: &[u8]) -> Option<u64>
    ensures { result ≡ number_from 0 digits.now }
{
    let mut number = 0;
    for digit in digits {
        number = with_digit(number, *digit)?;
    }
    Some(number)
}

/// Whether no number is written so: there is no digit, or a zero in front of others.
fn is_unwritten(word: &[u8]) -> bool
    ensures { result ≡ is_unwritten word.now }
{
    match word {
        [] => true,
        [_] => false,
        [digit, ..] => *digit == b'0',
    }
}

/// The number whose decimal text a word is, without leading zeros.
#[tactic(auto, unfolding(crate::specs::Fields::number_of))]
pub(crate) fn number(word: &[u8]) -> Option<u64>
    ensures { result ≡ number_of word.now }
{
    if is_unwritten(word) {
        return None;
    }
    number_from(word)
}

/// The number below 2^64 whose decimal text, without leading zeros, a word is (own).
pub fn read_number(word: &[u8]) -> Option<u64>
    ensures reads { IfSome result (λ n. (word.now ≡ decimal n) × (n < 2 ^ 64)) }
    ensures only { (n : ℕ) → n < 2 ^ 64 → word.now ≡ decimal n → result ≡ Some n }
{
    number(word)
}

/// A number of 32 bits.
#[tactic(auto, unfolding(crate::specs::Fields::number_below))]
pub(crate) fn number32(word: &[u8]) -> Option<u32>
    ensures { result ≡ number_below (2 ^ 32) word.now }
{
    u32::try_from(number(word)?).ok()
}

/// A number of 16 bits.
#[tactic(auto, unfolding(crate::specs::Fields::number_below))]
pub(crate) fn number16(word: &[u8]) -> Option<u16>
    ensures { result ≡ number_below (2 ^ 16) word.now }
{
    u16::try_from(number(word)?).ok()
}

/// A number of 8 bits.
#[tactic(auto, unfolding(crate::specs::Fields::number_below))]
pub(crate) fn number8(word: &[u8]) -> Option<u8>
    ensures { result ≡ number_below 256 word.now }
{
    u8::try_from(number(word)?).ok()
}

/// A number, with a hyphen for none.
#[tactic(auto, unfolding(crate::specs::Fields::limit_by))]
pub(crate) fn limit(word: &[u8]) -> Option<Option<u64>>
    ensures { result ≡ limit_by number_of word.now }
{
    if is_hyphen(word) {
        return Some(None);
    }
    Some(Some(number(word)?))
}

/// A number of 32 bits, with a hyphen for none.
#[tactic(auto, unfolding(crate::specs::Fields::limit_by))]
pub(crate) fn limit32(word: &[u8]) -> Option<Option<u32>>
    ensures { result ≡ limit_by (number_below (2 ^ 32)) word.now }
{
    if is_hyphen(word) {
        return Some(None);
    }
    Some(Some(number32(word)?))
}
