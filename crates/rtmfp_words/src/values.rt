//! The values of options and of plain words.
ghost use Rattle.std.specs.Prelude.{◌≡◌, ◌≤◌, IfSome};
ghost use Rattle.std.specs.List.{list_all};
ghost use Rattle.rtmfp_script.specs.Grammar.{is_name_byte};
ghost use Rattle.rtmfp_script.specs.Fields.{is_name, name_of};
ghost use Rattle.rtmfp_words.specs.NodeReading.{number_within, value_within};

use crate::option::read_value;
use rtmfp_base::Message;
use rtmfp_text::Name;

/// A number within limits.
#[tactic(auto, unfolding(crate::specs::NodeReading::number_within))]
pub(crate) fn number_within(least: u64, most: u64, word: &[u8]) -> Option<u64>
    ensures value { result ≡ number_within least most word.now }
    ensures bound { IfSome result (λ n. n ≤ most) }
{
    let number = read_value(word)?;
    if number < least || number > most {
        return None;
    }
    Some(number)
}

/// The value of an option that is needed: a number within limits.
pub(crate) fn needed(least: u64, most: u64, value: &Option<Message>) -> Option<u64>
    ensures value { result ≡ value_within least most value.now }
    ensures bound { IfSome result (λ n. n ≤ most) }
{
    match value {
        Some(word) => number_within(least, most, word.bytes()),
        None => None,
    }
}

/// The label that a word is: 1 to 16 of a to z and 0 to 9.
#[tactic(auto, unfolding(rtmfp_script::specs::Fields::name_of))]
pub(crate) fn label_of(word: &[u8]) -> Option<Name>
    ensures { result ≡ name_of word.now }
{
    if !is_name(word) {
        return None;
    }
    Name::new(word)
}

fn is_name(word: &[u8]) -> bool
    ensures { result ≡ is_name word.now }
{
    !word.is_empty() && word.len() <= 16 && all_name_bytes(word)
}

fn all_name_bytes(word: &[u8]) -> bool
    ensures { result ≡ list_all is_name_byte word.now }
{
    word.iter().all(|b| is_name_byte(*b))
}

fn is_name_byte(byte: u8) -> bool
    ensures { result ≡ is_name_byte byte }
{
    byte.is_ascii_lowercase() || byte.is_ascii_digit()
}
