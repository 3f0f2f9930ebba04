//! The two options of `replay`.
ghost use Rattle.std.specs.Prelude.{◌≡◌, map, string_bytes, None, Some, MatchOption};
ghost use Rattle.rtmfp_script.specs.Fields.{number_of};
ghost use Rattle.rtmfp_words.specs.Reading.{seed_of, steps_of, setting_of, joined_of, apart_of, option_of};

use crate::words::{behind, next_word};
use rtmfp_base::limits::STEPS;
use rtmfp_script::read_number;

/// What an option says.
#[derive(Clone, Copy)]
pub(crate) enum Setting {
    /// `--generate N`: the seed.
    Seed(u64),
    /// `--steps K`: how many steps.
    Steps(u64),
}

/// The number that a value is.
pub(crate) fn read_value(value: &[u8]) -> Option<u64>
    ensures { result ≡ number_of value.now }
{
    read_number(value)
}

/// The seed that a value is.
#[tactic(auto, unfolding(crate::specs::Reading::seed_of))]
fn read_seed(value: &[u8]) -> Option<Setting>
    ensures { result ≡ seed_of value.now }
{
    Some(Setting::Seed(read_value(value)?))
}

/// The count of steps that a value is.
#[tactic(auto, unfolding(crate::specs::Reading::steps_of))]
fn read_steps(value: &[u8]) -> Option<Setting>
    ensures { result ≡ steps_of value.now }
{
    let steps = read_value(value)?;
    if steps > STEPS {
        return None;
    }
    Some(Setting::Steps(steps))
}

/// An option by its name and its value.
#[tactic(auto, unfolding(crate::specs::Reading::setting_of))]
fn read_setting(name: &[u8], value: &[u8]) -> Option<Setting>
    ensures { result ≡ setting_of name.now value.now }
{
    if name == b"--generate".as_slice() {
        return read_seed(value);
    }
    if name == b"--steps".as_slice() {
        return read_steps(value);
    }
    None
}

/// An option that is one word.
#[tactic(auto, unfolding(crate::specs::Reading::joined_of))]
fn read_joined(word: &[u8]) -> Option<Setting>
    ensures { result ≡ joined_of word.now }
{
    match behind(b"--generate=", word) {
        Some(value) => read_seed(value),
        None => read_steps(behind(b"--steps=", word)?),
    }
}

/// An option whose value is the next word.
#[tactic(auto, unfolding(crate::specs::Reading::apart_of))]
fn read_apart<'a>(name: &[u8], words: &'a [String]) -> Option<(Setting, &'a [String])>
    ensures { MatchOption result (apart_of name.now (map string_bytes words.now)
        ≡ None) (λ p. apart_of name.now (map string_bytes words.now)
        ≡ Some (p.0, map string_bytes p.1.now)) }
{
    let (value, rest) = next_word(words)?;
    Some((read_setting(name, value)?, rest))
}

/// The option that stands in front, and the words behind it.
#[tactic(auto, unfolding(crate::specs::Reading::option_of))]
pub(crate) fn read_option(words: &[String]) -> Option<(Setting, &[String])>
    ensures { MatchOption result (option_of (map string_bytes words.now)
        ≡ None) (λ p. option_of (map string_bytes words.now)
        ≡ Some (p.0, map string_bytes p.1.now)) }
{
    let (word, rest) = next_word(words)?;
    match read_joined(word) {
        Some(setting) => Some((setting, rest)),
        None => read_apart(word, rest),
    }
}
