//! The entries of events, read.
ghost use Rattle.std.specs.Prelude.{◌≡◌, IfErr, IfOk};
ghost use Rattle.audit_text.specs.Readings.{EntryTakesMemory, advanced_of, born_of, closed_of, confirmed_of, ended_of, entry_by, entry_of, joined_of, learnt_of, opened_of, out_of, sought_of, started_of, unsought_of};

use crate::contexts::first_context;
use crate::fields::{
    first_address, first_nonce, first_number, first_number32, first_print, hexadecimal, nonce,
    number, number32, service, why,
};
use crate::line::LogEntry;
use glare_core::{Fact, Joined};
use rtmfp_base::Memory;
use rtmfp_script::split_word;
use std::alloc::Global;

#[tactic(auto, unfolding(crate::specs::Readings::started_of))]
fn read_started(rest: &[u8]) -> Option<LogEntry>
    ensures { result ≡ started_of rest.now }
{
    let (peer, rest) = first_print(rest)?;
    let (n, rest) = first_number(rest)?;
    let (near, rest) = first_number32(rest)?;
    let ni = nonce(rest)?;
    Some(LogEntry::Fact(Fact::Started { peer, n, near, ni }))
}

/// The values of a session.
#[tactic(auto, unfolding(crate::specs::Readings::joined_of))]
fn read_joined(rest: &[u8]) -> Option<Joined>
    ensures { result ≡ joined_of rest.now }
{
    let (peer, rest) = first_print(rest)?;
    let (n, rest) = first_number(rest)?;
    let (near, rest) = first_number32(rest)?;
    let (far, rest) = first_number32(rest)?;
    let (ni, rest) = first_nonce(rest)?;
    let (nr, rest) = first_nonce(rest)?;
    let k = number(rest)?;
    Some(Joined {
        peer,
        n,
        near,
        far,
        ni,
        nr,
        k,
    })
}

#[tactic(auto, unfolding(crate::specs::Readings::born_of))]
fn read_born(rest: &[u8]) -> Option<LogEntry>
    ensures { result ≡ born_of rest.now }
{
    Some(LogEntry::Fact(Fact::Born(read_joined(rest)?)))
}

#[tactic(auto, unfolding(crate::specs::Readings::opened_of))]
fn read_opened(rest: &[u8]) -> Option<LogEntry>
    ensures { result ≡ opened_of rest.now }
{
    Some(LogEntry::Fact(Fact::Opened(read_joined(rest)?)))
}

#[tactic(auto, unfolding(crate::specs::Readings::confirmed_of))]
fn read_confirmed(rest: &[u8]) -> Option<LogEntry>
    ensures { result ≡ confirmed_of rest.now }
{
    let (peer, rest) = first_print(rest)?;
    let near = number32(rest)?;
    Some(LogEntry::Fact(Fact::Confirmed { peer, near }))
}

#[tactic(auto, unfolding(crate::specs::Readings::ended_of))]
fn read_ended(rest: &[u8]) -> Option<LogEntry>
    ensures { result ≡ ended_of rest.now }
{
    let (peer, rest) = first_print(rest)?;
    let (near, rest) = first_number32(rest)?;
    let why = why(rest)?;
    Some(LogEntry::Fact(Fact::Ended { peer, near, why }))
}

#[tactic(auto, unfolding(crate::specs::Readings::closed_of))]
fn read_closed(rest: &[u8]) -> Option<LogEntry>
    ensures { result ≡ closed_of rest.now }
{
    Some(LogEntry::Closed {
        near: number32(rest)?,
    })
}

#[tactic(auto, unfolding(crate::specs::Readings::sought_of))]
fn read_sought(rest: &[u8]) -> Option<LogEntry>
    ensures { result ≡ sought_of rest.now }
{
    let (near, rest) = first_number32(rest)?;
    Some(LogEntry::Sought {
        near,
        name: service(rest)?,
    })
}

#[tactic(auto, unfolding(crate::specs::Readings::unsought_of))]
fn read_unsought(rest: &[u8]) -> Option<LogEntry>
    ensures { result ≡ unsought_of rest.now }
{
    let (near, rest) = first_number32(rest)?;
    Some(LogEntry::Unsought {
        near,
        why: why(rest)?,
    })
}

#[tactic(auto, unfolding(crate::specs::Readings::learnt_of))]
fn read_learnt(rest: &[u8]) -> Option<LogEntry>
    ensures { result ≡ learnt_of rest.now }
{
    Some(LogEntry::Learnt {
        generation: number(rest)?,
    })
}

#[tactic(auto, unfolding(crate::specs::Readings::advanced_of))]
fn read_advanced(rest: &[u8]) -> Option<LogEntry>
    ensures { result ≡ advanced_of rest.now }
{
    Some(LogEntry::Advanced {
        generation: number(rest)?,
    })
}

#[tactic(auto, unfolding(crate::specs::Readings::out_of))]
fn read_out(alloc: Global, rest: &[u8]) -> Result<Option<LogEntry>, Memory>
    ensures value { IfOk result (λ entry. entry ≡ out_of rest.now) }
    ensures memory { IfErr result (λ _. EntryTakesMemory (out_of rest.now)) }
{
    let Some((to, rest)) = first_address(rest) else {
        return Ok(None);
    };
    let Some((context, rest)) = first_context(rest) else {
        return Ok(None);
    };
    let Some(datagram) = hexadecimal(alloc, rest)? else {
        return Ok(None);
    };
    Ok(Some(LogEntry::Out {
        to,
        datagram,
        context,
    }))
}

/// Reads what stands behind the word of an entry.
#[tactic(auto, unfolding(crate::specs::Readings::entry_by))]
fn read_by(alloc: Global, word: &[u8], rest: &[u8]) -> Result<Option<LogEntry>, Memory>
    ensures value { IfOk result (λ entry. entry ≡ entry_by word.now rest.now) }
    ensures memory { IfErr result (λ _. EntryTakesMemory (entry_by word.now rest.now)) }
{
    if word == b"started".as_slice() {
        return Ok(read_started(rest));
    }
    if word == b"born".as_slice() {
        return Ok(read_born(rest));
    }
    if word == b"opened".as_slice() {
        return Ok(read_opened(rest));
    }
    if word == b"confirmed".as_slice() {
        return Ok(read_confirmed(rest));
    }
    if word == b"ended".as_slice() {
        return Ok(read_ended(rest));
    }
    if word == b"closed".as_slice() {
        return Ok(read_closed(rest));
    }
    if word == b"sought".as_slice() {
        return Ok(read_sought(rest));
    }
    if word == b"unsought".as_slice() {
        return Ok(read_unsought(rest));
    }
    if word == b"learnt".as_slice() {
        return Ok(read_learnt(rest));
    }
    if word == b"advanced".as_slice() {
        return Ok(read_advanced(rest));
    }
    if word == b"out".as_slice() {
        return read_out(alloc, rest);
    }
    Ok(None)
}

/// Reads an entry.
#[tactic(auto, unfolding(crate::specs::Readings::entry_of))]
pub(crate) fn read_entry(alloc: Global, rest: &[u8]) -> Result<Option<LogEntry>, Memory>
    ensures value { IfOk result (λ entry. entry ≡ entry_of rest.now) }
    ensures memory { IfErr result (λ _. EntryTakesMemory (entry_of rest.now)) }
{
    match split_word(b' ', rest) {
        Some((word, rest)) => read_by(alloc, word, rest),
        None => Ok(None),
    }
}
