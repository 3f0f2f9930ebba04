//! The words of `serve` and `meet`, and whole command lines: lists that are in the grammar, and each
//! one step away from it.

use rtmfp_words::{
    Command, CommandLine, ServeWords, WordsFault, read_command_line, read_meet_words,
    read_serve_words,
};
use std::alloc::{AllocError, Global};
use std::test::Fail;

/// Rows of `serve`: P stands for 64 digits, I for 32, G for 31, U for 32 that are upper-case, and N
/// for 32 of ASCII bytes.
/// Behind `=` stand the count of openings, the turns, whether it introduces, and how many
/// bytes it sends; or `none`.
const SERVE: &str = "\
serve 10.0.0.1:1935 P name --turns 5 = 0 5 false 0
serve --turns=5 10.0.0.1:1935 P name = 0 5 false 0
serve 10.0.0.1:0 P n P@10.0.0.2:1 P@[I]:2 --turns 1000000 = 2 1000000 false 0
serve --introduce 10.0.0.1:1 --instance I P --send 00ff name --turns 1 = 0 1 true 2
serve 10.0.0.1:1 P name --instance=I --send=00 --turns=1 = 0 1 false 1
serve 10.0.0.1:1 P name = none
serve 10.0.0.1:1 P name --turns = none
serve 10.0.0.1:1 P name --turns 5 --turns 5 = none
serve 10.0.0.1:1 P name --turns 5 --turns=5 = none
serve 10.0.0.1:1 P name --turns= = none
serve 10.0.0.1:1 P name --turns 0 = none
serve 10.0.0.1:1 P name --turns 1000001 = none
serve 10.0.0.1:1 P name --turns 05 = none
serve 10.0.0.1:1 P name --turns -5 = none
serve 10.0.0.1:1 P name --turns 5 --introduce --introduce = none
serve 10.0.0.1:1 P name --turns 5 --introduce=x = none
serve 10.0.0.1:1 P name --turns 5 -- = none
serve 10.0.0.1:1 P name --turns 5 --help = none
serve 10.0.0.1:1 P name --turns 5 -t = none
serve 10.0.0.1:1 P name --turns 5 - = none
serve 10.0.0.1:1 P name --turns 5 --Turns 5 = none
serve 10.0.0.1:1 P name --turns 5 --port 5 = none
serve 10.0.0.1:1 P name --turns 5 --send - = none
serve 10.0.0.1:1 P name --turns 5 --send= = none
serve 10.0.0.1:1 P name --turns 5 --send 0 = none
serve 10.0.0.1:1 P name --turns 5 --send FF = none
serve 10.0.0.1:1 P name --turns 5 --instance I0 = none
serve 10.0.0.1:1 P name --turns 5 --instance P = none
serve 10.0.0.1:1 P name --turns 5 P10.0.0.2:1 = none
serve 10.0.0.1:1 P name --turns 5 P@10.0.0.2:1@10.0.0.2:1 = none
serve 10.0.0.1:1 P name --turns 5 P@ = none
serve 10.0.0.1:1 P name --turns 5 @10.0.0.2:1 = none
serve 10.0.0.1:1 P name --turns 5 I@10.0.0.2:1 = none
serve 10.0.0.1:1 P name --turns 5 n:6c616d70@10.0.0.2:1 P@10.0.0.3:1 n:007f@[I]:2 = 3 5 false 0
serve 10.0.0.1:1 P name --turns 5 n:NNNN@10.0.0.2:1 = 1 5 false 0
serve 10.0.0.1:1 P name --turns 5 n:NNNN30@10.0.0.2:1 = none
serve 10.0.0.1:1 P name --turns 5 n:@10.0.0.2:1 = none
serve 10.0.0.1:1 P name --turns 5 n:-@10.0.0.2:1 = none
serve 10.0.0.1:1 P name --turns 5 n:6@10.0.0.2:1 = none
serve 10.0.0.1:1 P name --turns 5 n:6C@10.0.0.2:1 = none
serve 10.0.0.1:1 P name --turns 5 n:6c80@10.0.0.2:1 = none
serve 10.0.0.1:1 P name --turns 5 n6c@10.0.0.2:1 = none
serve 10.0.0.1:1 P name --turns 5 :6c@10.0.0.2:1 = none
serve 10.0.0.1:1 P name --turns 5 6c@10.0.0.2:1 = none
serve 10.0.0.1:1 P name --turns 5 n:6c10.0.0.2:1 = none
serve 10.0.0.1:1 P name --turns 5 n:6c@ = none
serve 10.0.0.1:65536 P name --turns 5 = none
serve 10.0.0.1 P name --turns 5 = none
serve 10.0.0.1:1 P0 name --turns 5 = none
serve 10.0.0.1:1 I name --turns 5 = none
serve 10.0.0.1:1 IG name --turns 5 = none
serve 10.0.0.1:1 IU name --turns 5 = none
serve 10.0.0.1:1 P P --turns 5 = 0 5 false 0
serve 10.0.0.1:1 P P0 --turns 5 = none
serve 10.0.0.1:1 P  --turns 5 = none
serve 10.0.0.1:1 P é --turns 5 = none
serve 10.0.0.1:1 P -name --turns 5 = none
serve 10.0.0.1:1 P --turns 5 = none
serve 10.0.0.1:1 --turns 5 = none
serve --turns 5 = none
serve = none
--turns 5 serve 10.0.0.1:1 P name = none
serves 10.0.0.1:1 P name --turns 5 = none
";

/// Rows of `serve` that say a next secret: Q stands for 64 digits other than those of P. Behind `=`
/// stand its first byte and the turn of the advance, or hyphens for none; or `none`.
const SUCCESSIONS: &str = "\
serve 10.0.0.1:1 P name --turns 5 = - -
serve 10.0.0.1:1 P name --turns 5 --next Q = 250 -
serve --next=Q 10.0.0.1:1 P name --advance=5 --turns 5 = 250 5
serve 10.0.0.1:1 Q name --advance 1 --turns 5 --next P = 1 1
serve 10.0.0.1:1 P name --turns 5 --next P = none
serve 10.0.0.1:1 P name --turns 5 --next II = none
serve 10.0.0.1:1 P name --turns 5 --next I = none
serve 10.0.0.1:1 P name --turns 5 --next Q0 = none
serve 10.0.0.1:1 P name --turns 5 --next IU = none
serve 10.0.0.1:1 P name --turns 5 --next= = none
serve 10.0.0.1:1 P name --turns 5 --next = none
serve 10.0.0.1:1 P name --turns 5 --next Q --next Q = none
serve 10.0.0.1:1 P name --turns 5 --advance 1 = none
serve 10.0.0.1:1 P name --turns 5 --next Q --advance 0 = none
serve 10.0.0.1:1 P name --turns 5 --next Q --advance 6 = none
serve 10.0.0.1:1 P name --turns 5 --next Q --advance 05 = none
serve 10.0.0.1:1 P name --turns 5 --next Q --advance = none
serve 10.0.0.1:1 P name --turns 5 --next Q --advance 1 --advance=1 = none
";

/// Rows of `meet`, with its port and its turns behind `=`.
const MEET: &str = "\
meet --port 40100 --turns 200 = 40100 200
meet --turns=1 --port=1 = 1 1
meet --turns 1000000 --port 65533 = 65533 1000000
meet --port 40100 = none
meet --turns 200 = none
meet --port 0 --turns 200 = none
meet --port 65534 --turns 200 = none
meet --port 1 --turns 0 = none
meet --port 1 --turns 1000001 = none
meet --port 1 --port 1 --turns 1 = none
meet --port 1 --turns 1 --turns=1 = none
meet --port --turns 1 = none
meet --port 1 --turns 1 name = none
meet --port 1 --turns 1 --introduce = none
meet --port 1 --turns 1 --send 00 = none
meet --port 1 --turns 1 --instance I = none
meet --port 1 --turns 1 -- = none
meet = none
met --port 1 --turns 1 = none
";

/// Rows of whole command lines, with the command behind `=`.
const LINES: &str = "\
show = show
replay = replay
replay --journal = journal
replay --journal 5 = none
replay --generate 7 --steps=5 = generate
audit = audit
serve 10.0.0.1:1 P name --turns 5 = serve
serve --turns=5 --introduce 10.0.0.1:1 P name = serve
meet --port 40100 --turns 200 = meet
serve 10.0.0.1:1 P name --turns 0 = none
serve 10.0.0.1:1 P name --turns 5 --steps 5 = none
meet --port 40100 --turns 200 serve = none
meet --port 40100 --turns 200 --generate 7 = none
show --turns 5 = none
replay --turns 5 = none
replay --port 5 --turns 5 = none
--turns 5 --port 5 meet = none
audit replay = none
audit --turns 5 = none
play = none
help = none
--help = none
-- = none
-- show = none
Show = none
Meet --port 40100 --turns 200 = none
 = none
 show = none
show  = none
";

/// What a letter of a row stands for, where it stands for digits.
fn digits_of(letter: char) -> &'static str {
    match letter {
        'P' => "0123456789abcdef0123456789abcdef0123456789abcdef0123456789abcdef",
        'Q' => "fa23456789abcdef0123456789abcdef0123456789abcdef0123456789abcdef",
        'I' => "0123456789abcdef0123456789abcdef",
        'G' => "0123456789abcdef0123456789abcde",
        'U' => "0123456789ABCDEF0123456789ABCDEF",
        'N' => "30313233343536373839616263646566",
        _ => "",
    }
}

/// Adds what a letter of a row stands for.
fn push_letter(letter: char, word: &mut String) -> Result<(), AllocError> {
    let digits = digits_of(letter);
    if digits.is_empty() {
        return word.push(letter);
    }
    word.push_str(digits)
}

/// What a word of a row stands for.
fn word_of(alloc: Global, text: &str) -> Result<String, AllocError> {
    let mut word = String::new(alloc);
    for letter in text.chars() {
        push_letter(letter, &mut word)?;
    }
    Ok(word)
}

/// The words of a row.
fn words_of(alloc: Global, text: &str) -> Result<Vec<String>, AllocError> {
    let mut words = Vec::new(alloc);
    for word in text.split(' ') {
        words.push(word_of(alloc, word)?)?;
    }
    Ok(words)
}

fn fault_name(fault: WordsFault) -> &'static str {
    match fault {
        WordsFault::Faulty => "none",
        WordsFault::Memory => "memory",
    }
}

fn serve_text(alloc: Global, serve: &ServeWords) -> Result<String, AllocError> {
    let openings = serve.openings.len();
    let (turns, introduce) = (serve.turns, serve.introduce);
    let sent = serve.send.as_ref().map_or(0, |bytes| bytes.len());
    format!(in alloc; "{openings} {turns} {introduce} {sent}")
}

/// What `serve` is told of a next secret, in words.
fn next_text(alloc: Global, serve: &ServeWords) -> Result<String, AllocError> {
    let Some(next) = &serve.next else {
        return String::from_str(alloc, "- -");
    };
    let first = next[0];
    match serve.advance {
        Some(turn) => format!(in alloc; "{first} {turn}"),
        None => format!(in alloc; "{first} -"),
    }
}

/// The same of words.
fn succeeded(alloc: Global, text: &str) -> Result<String, AllocError> {
    let words = words_of(alloc, text)?;
    match read_serve_words(alloc, words.as_slice()) {
        Ok(serve) => next_text(alloc, &serve),
        Err(fault) => String::from_str(alloc, fault_name(fault)),
    }
}

/// What `serve` is told, in words.
fn served(alloc: Global, text: &str) -> Result<String, AllocError> {
    let words = words_of(alloc, text)?;
    match read_serve_words(alloc, words.as_slice()) {
        Ok(serve) => serve_text(alloc, &serve),
        Err(fault) => String::from_str(alloc, fault_name(fault)),
    }
}

/// What `meet` is told, in words.
fn met(alloc: Global, text: &str) -> Result<String, AllocError> {
    let words = words_of(alloc, text)?;
    match read_meet_words(alloc, words.as_slice()) {
        Ok(meet) => format!(in alloc; "{} {}", meet.port, meet.turns),
        Err(fault) => String::from_str(alloc, fault_name(fault)),
    }
}

/// The command that words say.
fn said(alloc: Global, words: &[String]) -> &'static str {
    match read_command_line(alloc, words) {
        Ok(CommandLine::Lines(Command::Show)) => "show",
        Ok(CommandLine::Lines(Command::Replay)) => "replay",
        Ok(CommandLine::Lines(Command::Journal)) => "journal",
        Ok(CommandLine::Lines(Command::Generate { .. })) => "generate",
        Ok(CommandLine::Lines(Command::Audit)) => "audit",
        Ok(CommandLine::Serve(_)) => "serve",
        Ok(CommandLine::Meet(_)) => "meet",
        Err(fault) => fault_name(fault),
    }
}

/// What the words of a row are, and what they are to say.
fn sides(row: &str) -> (&str, &str) {
    row.rsplit_once(" = ").unwrap_or(("", ""))
}

fn is_command(alloc: Global, row: &str) -> Result<bool, AllocError> {
    let (text, wanted) = sides(row);
    let words = words_of(alloc, text)?;
    Ok(said(alloc, words.as_slice()) == wanted)
}

/// The first row that is wrong.
fn wrong_line(alloc: Global) -> Result<Option<&'static str>, AllocError> {
    for row in LINES.lines() {
        if !is_command(alloc, row)? {
            return Ok(Some(row));
        }
    }
    Ok(None)
}

fn is_serve(alloc: Global, row: &str) -> Result<bool, AllocError> {
    let (text, wanted) = sides(row);
    let told = served(alloc, text)?;
    Ok(told.as_str() == wanted)
}

/// The first row that is wrong.
fn wrong_serve(alloc: Global) -> Result<Option<&'static str>, AllocError> {
    for row in SERVE.lines() {
        if !is_serve(alloc, row)? {
            return Ok(Some(row));
        }
    }
    Ok(None)
}

fn is_succession(alloc: Global, row: &str) -> Result<bool, AllocError> {
    let (text, wanted) = sides(row);
    let told = succeeded(alloc, text)?;
    Ok(told.as_str() == wanted)
}

/// The first row that is wrong.
fn wrong_succession(alloc: Global) -> Result<Option<&'static str>, AllocError> {
    for row in SUCCESSIONS.lines() {
        if !is_succession(alloc, row)? {
            return Ok(Some(row));
        }
    }
    Ok(None)
}

fn is_meet(alloc: Global, row: &str) -> Result<bool, AllocError> {
    let (text, wanted) = sides(row);
    let told = met(alloc, text)?;
    Ok(told.as_str() == wanted)
}

/// The first row that is wrong.
fn wrong_meet(alloc: Global) -> Result<Option<&'static str>, AllocError> {
    for row in MEET.lines() {
        if !is_meet(alloc, row)? {
            return Ok(Some(row));
        }
    }
    Ok(None)
}

#[test]
fn words_of_serve_are_these(rt: HostRuntime) -> Result<(), Fail> {
    assert_eq!(rt; wrong_serve(rt.alloc())?, None);
    Ok(())
}

#[test]
fn next_secrets_of_serve_are_these(rt: HostRuntime) -> Result<(), Fail> {
    assert_eq!(rt; wrong_succession(rt.alloc())?, None);
    Ok(())
}

#[test]
fn words_of_meet_are_these(rt: HostRuntime) -> Result<(), Fail> {
    assert_eq!(rt; wrong_meet(rt.alloc())?, None);
    Ok(())
}

#[test]
fn command_lines_are_these(rt: HostRuntime) -> Result<(), Fail> {
    assert_eq!(rt; wrong_line(rt.alloc())?, None);
    assert!(rt; said(rt.alloc(), &[]) == "none");
    Ok(())
}
