//! The words of the command line.

use rtmfp_words::{Command, read_command};
use std::alloc::{AllocError, Global};
use std::test::Fail;

/// Words, and the command that they are.
const ROWS: &str = "show = show
replay = replay
replay --journal = journal
replay --journal --journal = none
replay --journal=1 = none
replay --journal 1 = none
replay --journal --generate 7 --steps 1 = none
--journal replay = none
show --journal = none
replay --generate 7 --steps=100000 = generate 7 100000
replay --steps 0 --generate=18446744073709551615 = generate 18446744073709551615 0
replay --generate=07 --steps=1 = none
replay --steps=1 --steps 1 = none
replay --generate 1 = none
replay --generate=1 --steps=100001 = none
show replay = none
audit = audit
audit replay = none
audit --steps=1 = none
";

fn words_of(alloc: Global, text: &str) -> Result<Vec<String>, AllocError> {
    let mut words = Vec::new(alloc);
    for word in text.split(' ') {
        words.push(String::from_str(alloc, word)?)?;
    }
    Ok(words)
}

/// A command in words.
fn command_text(alloc: Global, command: Option<Command>) -> Result<String, AllocError> {
    match command {
        Some(Command::Show) => String::from_str(alloc, "show"),
        Some(Command::Replay) => String::from_str(alloc, "replay"),
        Some(Command::Journal) => String::from_str(alloc, "journal"),
        Some(Command::Generate { seed, steps }) => format!(in alloc; "generate {seed} {steps}"),
        Some(Command::Audit) => String::from_str(alloc, "audit"),
        None => String::from_str(alloc, "none"),
    }
}

/// The command that words are, in words.
fn told(alloc: Global, text: &str) -> Result<String, AllocError> {
    let words = words_of(alloc, text)?;
    command_text(alloc, read_command(words.as_slice()))
}

/// Words, and the command that they are.
fn sides(row: &str) -> (&str, &str) {
    row.split_once(" = ").unwrap_or(("", ""))
}

fn is_so(alloc: Global, row: &str) -> Result<bool, AllocError> {
    let (words, command) = sides(row);
    let told = told(alloc, words)?;
    Ok(told.as_str() == command)
}

fn first_wrong(alloc: Global) -> Result<Option<&'static str>, AllocError> {
    for row in ROWS.lines() {
        if !is_so(alloc, row)? {
            return Ok(Some(row));
        }
    }
    Ok(None)
}

#[test]
fn words_are_these_commands(rt: HostRuntime) -> Result<(), Fail> {
    assert_eq!(rt; first_wrong(rt.alloc())?, None);
    assert!(rt; read_command(&[]).is_none());
    Ok(())
}
