//! The commands.
ghost use Rattle.std.specs.Prelude.{◌≡◌, ℕ, map, string_bytes, Some};
ghost use Rattle.rtmfp_words.specs.Words.{IsShow, IsReplay, IsJournal, IsGenerate, IsAudit, Reads};
ghost use Rattle.rtmfp_words.specs.Reading.{command_of, show_of, replay_of, options_of, journal_of, generate_of, audit_of, both};

use crate::option::{Setting, read_option};
use crate::words::{is_end, next_word};

/// What the words of the command line ask for (own).
#[derive(Clone, Copy, Debug, PartialEq, Eq)]
pub enum Command {
    /// `show`: packets are read from lines, and their texts are written.
    Show,
    /// `replay`: a script is read and done.
    Replay,
    /// `replay --journal`: a script is read and done, and the logs of its ends are written.
    Journal,
    /// `replay --generate N --steps K`: a script is made of a seed and done.
    Generate {
        /// The seed.
        seed: u64,
        /// How many steps the script has, at most 100,000.
        steps: u64,
    },
    /// `audit`: the logs of ends are read from lines, and it is written whether they agree.
    Audit,
}

/// The command that the words after the program's name say (own).
///
/// They are `show`; or `replay`; or `replay --journal`; or `replay` with the options `--generate N`
/// and `--steps K`, each once, in either order; or `audit`. An option with a value is two words, or
/// one with `=` between the name and the value. N and K are decimal numbers without leading zeros; N
/// is below 2^64, and K is at most 100,000. All other words are faulty, also where one stands behind
/// `show`, `--journal` or `audit`.
pub fn read_command(words: &[String]) -> Option<Command>
    ensures reads { Reads words.now result }
    ensures show { IsShow words.now → result ≡ Some Command.Show }
    ensures replay { IsReplay words.now → result ≡ Some Command.Replay }
    ensures journal { IsJournal words.now → result ≡ Some Command.Journal }
    ensures generate { (seed steps : ℕ) → IsGenerate words.now seed steps →
        result ≡ Some (Command.Generate seed steps) }
    ensures audit { IsAudit words.now → result ≡ Some Command.Audit }
{
    find_command(words)
}

#[tactic(auto, unfolding(crate::specs::Reading::command_of))]
fn find_command(words: &[String]) -> Option<Command>
    ensures { result ≡ command_of (map string_bytes words.now) }
{
    let (word, rest) = next_word(words)?;
    if word == b"show".as_slice() {
        return show(rest);
    }
    if word == b"replay".as_slice() {
        return replay(rest);
    }
    if word == b"audit".as_slice() {
        return audit(rest);
    }
    None
}

/// What the words behind `show` make it.
#[tactic(auto, unfolding(crate::specs::Reading::show_of))]
fn show(words: &[String]) -> Option<Command>
    ensures { result ≡ show_of (map string_bytes words.now) }
{
    if !is_end(words) {
        return None;
    }
    Some(Command::Show)
}

/// What the words behind `audit` make it.
#[tactic(auto, unfolding(crate::specs::Reading::audit_of))]
fn audit(words: &[String]) -> Option<Command>
    ensures { result ≡ audit_of (map string_bytes words.now) }
{
    if !is_end(words) {
        return None;
    }
    Some(Command::Audit)
}

/// What the words behind `replay` make it.
#[tactic(auto, unfolding(crate::specs::Reading::replay_of))]
fn replay(words: &[String]) -> Option<Command>
    ensures { result ≡ replay_of (map string_bytes words.now) }
{
    if is_end(words) {
        return Some(Command::Replay);
    }
    options(words)
}

/// What the options behind `replay` make it.
#[tactic(auto, unfolding(crate::specs::Reading::options_of))]
fn options(words: &[String]) -> Option<Command>
    ensures { result ≡ options_of (map string_bytes words.now) }
{
    let (word, rest) = next_word(words)?;
    if word == b"--journal".as_slice() {
        return journal(rest);
    }
    generate(words)
}

/// What the words behind `replay --journal` make it.
#[tactic(auto, unfolding(crate::specs::Reading::journal_of))]
fn journal(words: &[String]) -> Option<Command>
    ensures { result ≡ journal_of (map string_bytes words.now) }
{
    if !is_end(words) {
        return None;
    }
    Some(Command::Journal)
}

/// The two options, and nothing behind them.
#[tactic(auto, unfolding(crate::specs::Reading::generate_of))]
fn generate(words: &[String]) -> Option<Command>
    ensures { result ≡ generate_of (map string_bytes words.now) }
{
    let (first, rest) = read_option(words)?;
    let (second, rest) = read_option(rest)?;
    if !is_end(rest) {
        return None;
    }
    both(first, second)
}

/// One option of each kind.
#[tactic(auto, unfolding(crate::specs::Reading::both))]
fn both(first: Setting, second: Setting) -> Option<Command>
    ensures { result ≡ both first second }
{
    match (first, second) {
        (Setting::Seed(seed), Setting::Steps(steps)) => Some(Command::Generate { seed, steps }),
        (Setting::Steps(steps), Setting::Seed(seed)) => Some(Command::Generate { seed, steps }),
        _ => None,
    }
}
