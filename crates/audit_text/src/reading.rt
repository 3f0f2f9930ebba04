//! Lines that are read.
ghost use Rattle.std.specs.Prelude.{◌≡◌, ◌⊎◌, ◌↔◌, Ok, Err, IfErr, IfOk};
ghost use Rattle.audit_text.specs.Grammar.{IsLineOf, IsOutside, TakesMemory, draws};
ghost use Rattle.audit_text.specs.Readings.{IsRead, LineTakesMemory, drawn_of, entry_line_of, event_of, event_said, is_hashed, line_by, line_of, log_of, told_of};

use crate::calls::read_call;
use crate::entries::read_entry;
use crate::fields::{
    certificate, first_name, first_nonce, first_number, first_number32, first_print,
};
use crate::line::{LogCall, LogEvent, LogHead, LogLine};
use rtmfp_base::Memory;
use rtmfp_script::split_word;
use rtmfp_text::Name;
use std::alloc::Global;
use thiserror::Error;

/// The most bytes of a line without its LF (own).
const LINE: usize = 8192;

/// Why a line wasn't read.
#[derive(Clone, Copy, Debug, PartialEq, Eq, Error)]
pub enum LogLineRefusal {
    /// It is outside the grammar.
    #[error("the line is outside the grammar of a log's text")]
    BadLine,
    /// There was no memory for its datagram.
    #[error("out of memory")]
    Memory,
}

#[tactic(auto, unfolding(crate::specs::Readings::log_of))]
fn read_log(rest: &[u8]) -> Option<LogLine>
    ensures { result ≡ log_of rest.now }
{
    let (name, rest) = first_name(rest)?;
    let (max_peers, rest) = first_number32(rest)?;
    let (max_sessions, rest) = first_number32(rest)?;
    let (generation, rest) = first_number(rest)?;
    let (secret, rest) = first_print(rest)?;
    let (cookie_secret, rest) = first_print(rest)?;
    let cert = certificate(rest)?;
    let head = LogHead {
        max_peers,
        max_sessions,
        generation,
        secret,
        cookie_secret,
        cert,
    };
    Some(LogLine::Log { name, head })
}

/// Whether a call draws a nonce.
fn draws(call: &LogCall) -> bool
    ensures { result ≡ draws call.now }
{
    match call {
        LogCall::Open { .. } => true,
        LogCall::Seek { .. } => true,
        LogCall::Cancel { .. } => false,
        LogCall::Unseek { .. } => false,
        LogCall::Close { .. } => false,
        LogCall::Learn { .. } => false,
        LogCall::Advance => false,
        LogCall::Receive { .. } => true,
        LogCall::Tick => true,
        LogCall::Other => false,
    }
}

/// The event of a call. One that draws no nonce has one of zeros.
#[tactic(auto, unfolding(crate::specs::Readings::event_said))]
fn event_said(name: Name, moment: u64, nonce: [u8; 16], call: LogCall) -> Option<LogLine>
    ensures { result ≡ event_said name moment nonce call }
{
    if !draws(&call) && nonce != [0; 16] {
        return None;
    }
    let event = LogEvent {
        moment,
        nonce,
        call,
    };
    Some(LogLine::Event { name, event })
}

/// Reads the call of an event, behind the nonce.
#[tactic(auto, unfolding(crate::specs::Readings::drawn_of))]
fn read_drawn(
    alloc: Global,
    name: Name,
    moment: u64,
    nonce: [u8; 16],
    rest: &[u8],
) -> Result<Option<LogLine>, Memory>
    ensures value { IfOk result (λ said. said ≡ drawn_of name moment nonce rest.now) }
    ensures memory { IfErr result (λ _. LineTakesMemory (drawn_of name moment nonce rest.now)) }
{
    let Some(call) = read_call(alloc, rest)? else {
        return Ok(None);
    };
    Ok(event_said(name, moment, nonce, call))
}

#[tactic(auto, unfolding(crate::specs::Readings::event_of))]
fn read_event(alloc: Global, rest: &[u8]) -> Result<Option<LogLine>, Memory>
    ensures value { IfOk result (λ said. said ≡ event_of rest.now) }
    ensures memory { IfErr result (λ _. LineTakesMemory (event_of rest.now)) }
{
    let Some((name, rest)) = first_name(rest) else {
        return Ok(None);
    };
    let Some((moment, rest)) = first_number(rest) else {
        return Ok(None);
    };
    let Some(drawn) = first_nonce(rest) else {
        return Ok(None);
    };
    let (nonce, rest) = drawn;
    read_drawn(alloc, name, moment, nonce, rest)
}

#[tactic(auto, unfolding(crate::specs::Readings::entry_line_of))]
fn read_entry_line(alloc: Global, rest: &[u8]) -> Result<Option<LogLine>, Memory>
    ensures value { IfOk result (λ said. said ≡ entry_line_of rest.now) }
    ensures memory { IfErr result (λ _. LineTakesMemory (entry_line_of rest.now)) }
{
    match read_entry(alloc, rest)? {
        Some(entry) => Ok(Some(LogLine::Entry(entry))),
        None => Ok(None),
    }
}

/// Reads what stands behind the first word of a line.
#[tactic(auto, unfolding(crate::specs::Readings::line_by))]
fn read_by(alloc: Global, word: &[u8], rest: &[u8]) -> Result<Option<LogLine>, Memory>
    ensures value { IfOk result (λ said. said ≡ line_by word.now rest.now) }
    ensures memory { IfErr result (λ _. LineTakesMemory (line_by word.now rest.now)) }
{
    if word == b"log".as_slice() {
        return Ok(read_log(rest));
    }
    if word == b"event".as_slice() {
        return read_event(alloc, rest);
    }
    if word == b"+".as_slice() {
        return read_entry_line(alloc, rest);
    }
    Ok(None)
}

/// Reads a line that isn't skipped.
#[tactic(auto, unfolding(crate::specs::Readings::told_of))]
fn read_told(alloc: Global, line: &[u8]) -> Result<Option<LogLine>, Memory>
    ensures value { IfOk result (λ said. said ≡ told_of line.now) }
    ensures memory { IfErr result (λ _. LineTakesMemory (told_of line.now)) }
{
    match split_word(b' ', line) {
        Some((word, rest)) => read_by(alloc, word, rest),
        None => Ok(None),
    }
}

/// Whether a line begins with `#`.
fn is_hashed(line: &[u8]) -> bool
    ensures { result ≡ is_hashed line.now }
{
    match line {
        [] => false,
        [byte, ..] => *byte == b'#',
    }
}

#[tactic(auto, unfolding(crate::specs::Readings::line_of))]
fn find_line(alloc: Global, line: &[u8]) -> Result<LogLine, LogLineRefusal>
    ensures { IsRead (line_of line.now) result }
{
    if line.len() > LINE {
        return Err(LogLineRefusal::BadLine);
    }
    if is_hashed(line) {
        return Ok(LogLine::Skip);
    }
    match read_told(alloc, line) {
        Ok(Some(said)) => Ok(said),
        Ok(None) => Err(LogLineRefusal::BadLine),
        Err(Memory) => Err(LogLineRefusal::Memory),
    }
}

/// Reads a line of a log's text, which is given without its LF (own form).
pub fn read_log_line(alloc: Global, line: &[u8]) -> Result<LogLine, LogLineRefusal>
    // What is read is said.
    ensures reads { IfOk result (λ said. IsLineOf line.now said) }
    // What is said is read, unless there is no memory. So a line says one thing.
    ensures only { (said : LogLine) → IsLineOf line.now said →
        (result ≡ Ok said) ⊎ (result ≡ Err LogLineRefusal.Memory) }
    // A line is bad exactly where nothing is said.
    ensures bad { (result ≡ Err LogLineRefusal.BadLine) ↔ IsOutside line.now }
    // Memory can be wanting for a datagram alone: that of a `receive` or of an `out`.
    ensures memory { result ≡ Err LogLineRefusal.Memory → (said : LogLine) ×
        (IsLineOf line.now said × TakesMemory said) }
{
    find_line(alloc, line)
}
