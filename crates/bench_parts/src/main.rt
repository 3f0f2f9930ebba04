//! Times two parts of an end by themselves: what seals packets, and what carries messages in flows.
//!
//! Lines that begin with `seal`, `open` or `hash` are of the former, as `scripts/bench-crypto` tells
//! them, and all others of the latter, as `scripts/bench-flows` does. The scripts take the time.
#![tactic(auto)]

mod flows;
mod sealing;

use std::io;

fn main(rt: HostRuntime) -> io::Result<()> {
    let mut buf = [0u8; sealing::BUFFER_LEN];
    for line in rt.lines(rt.alloc()) {
        let line = line?;
        answer(&rt, line.as_str(), &mut buf)?;
    }
    Ok(())
}

/// The word of a line at this place.
fn word(line: &str, index: usize) -> &str {
    line.split_whitespace().nth(index).unwrap_or("")
}

/// The number of a line at this place, 0 where there is none.
pub(crate) fn number(line: &str, index: usize) -> u64 {
    word(line, index).parse().unwrap_or(0)
}

/// Answers a line, by its first word.
fn answer(rt: &HostRuntime, line: &str, buf: &mut [u8; sealing::BUFFER_LEN]) -> io::Result<()> {
    match word(line, 0) {
        "seal" | "open" | "hash" => sealing::answer(rt, word(line, 0), line, buf),
        word => flows::answer(rt, word, line),
    }
}
