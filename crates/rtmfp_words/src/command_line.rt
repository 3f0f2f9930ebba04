//! The whole command line.
ghost use Rattle.std.specs.Prelude.{◌≡◌, ◌⊎◌, Ok, Err, Some, None, IfOk};
ghost use Rattle.rtmfp_words.specs.CommandLine.{IsFaulty, NamesNode, Says, SaysNode};
ghost use Rattle.rtmfp_words.specs.Words.{Reads};

use crate::command::{Command, read_command};
use crate::fault::WordsFault;
use crate::meet_words::{MeetWords, read_meet_words};
use crate::serve_words::{ServeWords, read_serve_words};
use crate::words::next_word;
use std::alloc::Global;

/// What the words of the command line ask for (own).
#[derive(Drop)]
pub enum CommandLine {
    /// `show`, `replay` or `audit`.
    Lines(Command),
    /// `serve`: a node is run.
    Serve(ServeWords),
    /// `meet`: three nodes are started.
    Meet(MeetWords),
}

/// What the words after the program's name say (own), by the grammars of `read_command`,
/// `read_serve_words` and `read_meet_words`. No list of words is in two of them.
pub fn read_command_line(alloc: Global, words: &[String]) -> Result<CommandLine, WordsFault>
    // What is read is said, and what is said is read, unless there is no memory.
    ensures says { IfOk result (λ line. Says words.now line) }
    ensures only { (line : CommandLine) → Says words.now line →
        (result ≡ Ok line) ⊎ (result ≡ Err WordsFault.Memory) }

    ensures faulty { result ≡ Err WordsFault.Faulty → IsFaulty words.now }

    // Only the words of a node need memory.
    ensures memory { result ≡ Err WordsFault.Memory → NamesNode words.now }
{
    match read_command(words) {
        Some(command) => Ok(CommandLine::Lines(command)),
        None => read_node(alloc, words),
    }
}

/// What words say that say no other command.
fn read_node(alloc: Global, words: &[String]) -> Result<CommandLine, WordsFault>
    requires { Reads words.now None }
    ensures says { SaysNode words.now result }
    ensures only { (line : CommandLine) → Says words.now line →
        (result ≡ Ok line) ⊎ (result ≡ Err WordsFault.Memory) }
{
    let Some((word, _)) = next_word(words) else {
        return Err(WordsFault::Faulty);
    };
    if word == b"meet".as_slice() {
        return match read_meet_words(alloc, words) {
            Ok(meet) => Ok(CommandLine::Meet(meet)),
            Err(fault) => Err(fault),
        };
    }
    if word == b"serve".as_slice() {
        return match read_serve_words(alloc, words) {
            Ok(serve) => Ok(CommandLine::Serve(serve)),
            Err(fault) => Err(fault),
        };
    }
    Err(WordsFault::Faulty)
}
