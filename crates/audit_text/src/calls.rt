//! The calls of events, read.
ghost use Rattle.std.specs.Prelude.{◌≡◌, IfErr, IfOk};
ghost use Rattle.audit_text.specs.Readings.{CallTakesMemory, bare_of, call_by, call_of, cancel_of, close_of, learn_of, open_of, receive_of, seek_of, unseek_of};

use crate::fields::{
    first_address, first_print, first_service, hexadecimal, nonce, number, number32, print,
};
use crate::line::LogCall;
use rtmfp_base::Memory;
use rtmfp_script::split_word;
use std::alloc::Global;

#[tactic(auto, unfolding(crate::specs::Readings::open_of))]
fn read_open(rest: &[u8]) -> Option<LogCall>
    ensures { result ≡ open_of rest.now }
{
    let (peer, rest) = first_print(rest)?;
    let tag = nonce(rest)?;
    Some(LogCall::Open { peer, tag })
}

#[tactic(auto, unfolding(crate::specs::Readings::seek_of))]
fn read_seek(rest: &[u8]) -> Option<LogCall>
    ensures { result ≡ seek_of rest.now }
{
    let Some((name, rest)) = first_service(rest) else {
        return None;
    };
    let tag = nonce(rest)?;
    Some(LogCall::Seek { name, tag })
}

#[tactic(auto, unfolding(crate::specs::Readings::cancel_of))]
fn read_cancel(rest: &[u8]) -> Option<LogCall>
    ensures { result ≡ cancel_of rest.now }
{
    Some(LogCall::Cancel { n: number(rest)? })
}

#[tactic(auto, unfolding(crate::specs::Readings::unseek_of))]
fn read_unseek(rest: &[u8]) -> Option<LogCall>
    ensures { result ≡ unseek_of rest.now }
{
    Some(LogCall::Unseek {
        near: number32(rest)?,
    })
}

#[tactic(auto, unfolding(crate::specs::Readings::close_of))]
fn read_close(rest: &[u8]) -> Option<LogCall>
    ensures { result ≡ close_of rest.now }
{
    Some(LogCall::Close {
        near: number32(rest)?,
    })
}

#[tactic(auto, unfolding(crate::specs::Readings::learn_of))]
fn read_learn(rest: &[u8]) -> Option<LogCall>
    ensures { result ≡ learn_of rest.now }
{
    Some(LogCall::Learn {
        secret: print(rest)?,
    })
}

#[tactic(auto, unfolding(crate::specs::Readings::receive_of))]
fn read_receive(alloc: Global, rest: &[u8]) -> Result<Option<LogCall>, Memory>
    ensures value { IfOk result (λ call. call ≡ receive_of rest.now) }
    ensures memory { IfErr result (λ _. CallTakesMemory (receive_of rest.now)) }
{
    let Some((from, rest)) = first_address(rest) else {
        return Ok(None);
    };
    let Some(datagram) = hexadecimal(alloc, rest)? else {
        return Ok(None);
    };
    Ok(Some(LogCall::Receive { from, datagram }))
}

/// Reads what stands behind the word of a call.
#[tactic(auto, unfolding(crate::specs::Readings::call_by))]
fn read_by(alloc: Global, word: &[u8], rest: &[u8]) -> Result<Option<LogCall>, Memory>
    ensures value { IfOk result (λ call. call ≡ call_by word.now rest.now) }
    ensures memory { IfErr result (λ _. CallTakesMemory (call_by word.now rest.now)) }
{
    if word == b"open".as_slice() {
        return Ok(read_open(rest));
    }
    if word == b"seek".as_slice() {
        return Ok(read_seek(rest));
    }
    if word == b"cancel".as_slice() {
        return Ok(read_cancel(rest));
    }
    if word == b"unseek".as_slice() {
        return Ok(read_unseek(rest));
    }
    if word == b"close".as_slice() {
        return Ok(read_close(rest));
    }
    if word == b"learn".as_slice() {
        return Ok(read_learn(rest));
    }
    if word == b"receive".as_slice() {
        return read_receive(alloc, rest);
    }
    Ok(None)
}

/// The call that is a word alone.
#[tactic(auto, unfolding(crate::specs::Readings::bare_of))]
fn read_bare(word: &[u8]) -> Option<LogCall>
    ensures { result ≡ bare_of word.now }
{
    if word == b"advance".as_slice() {
        return Some(LogCall::Advance);
    }
    if word == b"tick".as_slice() {
        return Some(LogCall::Tick);
    }
    if word == b"other".as_slice() {
        return Some(LogCall::Other);
    }
    None
}

/// Reads a call.
#[tactic(auto, unfolding(crate::specs::Readings::call_of))]
pub(crate) fn read_call(alloc: Global, text: &[u8]) -> Result<Option<LogCall>, Memory>
    ensures value { IfOk result (λ call. call ≡ call_of text.now) }
    ensures memory { IfErr result (λ _. CallTakesMemory (call_of text.now)) }
{
    match split_word(b' ', text) {
        Some((word, rest)) => read_by(alloc, word, rest),
        None => Ok(read_bare(text)),
    }
}
