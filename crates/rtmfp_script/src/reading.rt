//! Lines that are read.
ghost use Rattle.std.specs.Prelude.{◌≡◌, ◌↔◌, ◌<◌, ◌^◌, IsSome, IsTrue, IfErr, IfOk};
ghost use Rattle.rtmfp_script.specs.Grammar.{IsLineOf, IsSkipped, TakesMemory};
ghost use Rattle.rtmfp_script.specs.Lines.{end_of, introduce_of, narrow_of, redirect_of, row_said, at_of, open_of, open_to, cancel_of, close_of, learn_of, advance_of, tick_of, deliver_of, bent_of, bytes_at, inject_of, forge_of, word_of, step_of, StepTakesMemory, Says};

use crate::address::{address, addresses};
use crate::bytes::bytes;
use crate::fields::{cert, name, number, number16, number32, split};
use crate::flows::{read_abandon, read_finish, read_flow, read_queue};
use crate::line::{AimLine, BringLine, CallLine, Candidates, Said, ScriptLine};
use crate::placing::{read_carry, read_place, read_translator};
use crate::seeking::{read_seek, read_unseek};
use rtmfp_base::limits::{CANDIDATES, LINE, PLAIN, TAKEN};
use rtmfp_base::{Memory, Message};
use rtmfp_forms::Address;
use rtmfp_text::Name;
use std::alloc::Global;

#[tactic(auto, unfolding(crate::specs::Lines::end_of))]
fn read_end(rest: &[u8]) -> Option<ScriptLine>
    ensures { result ≡ end_of rest.now }
{
    let (first, rest) = split(b' ', rest)?;
    let (second, rest) = split(b' ', rest)?;
    let (third, rest) = split(b' ', rest)?;
    Some(ScriptLine::End {
        name: name(first)?,
        peers: number32(second)?,
        sessions: number32(third)?,
        cert: cert(rest)?,
    })
}

#[tactic(auto, unfolding(crate::specs::Lines::introduce_of))]
fn read_introduce(rest: &[u8]) -> Option<ScriptLine>
    ensures { result ≡ introduce_of rest.now }
{
    Some(ScriptLine::Call {
        name: name(rest)?,
        call: CallLine::Introduce,
    })
}

#[tactic(auto, unfolding(crate::specs::Lines::narrow_of))]
fn read_narrow(rest: &[u8]) -> Option<ScriptLine>
    ensures { result ≡ narrow_of rest.now }
{
    let (first, rest) = split(b' ', rest)?;
    Some(ScriptLine::Call {
        name: name(first)?,
        call: CallLine::Narrow {
            limit: number16(rest)?,
        },
    })
}

#[tactic(auto, unfolding(crate::specs::Lines::redirect_of))]
fn read_redirect(rest: &[u8]) -> Option<ScriptLine>
    ensures { result ≡ redirect_of rest.now }
{
    let (first, rest) = split(b' ', rest)?;
    let (second, rest) = split(b' ', rest)?;
    row_said(name(first)?, name(second)?, addresses(rest)?)
}

/// A row of these addresses, where they are 16 at most.
fn row_said(name: Name, peer: Name, addresses: Candidates) -> Option<ScriptLine>
    ensures { result ≡ row_said name peer addresses }
{
    if addresses.as_slice().len() > CANDIDATES {
        return None;
    }
    Some(ScriptLine::Towards {
        name,
        peer,
        addresses,
        aim: AimLine::Redirect,
    })
}

#[tactic(auto, unfolding(crate::specs::Lines::at_of))]
fn read_at(rest: &[u8]) -> Option<ScriptLine>
    ensures { result ≡ at_of rest.now }
{
    Some(ScriptLine::At {
        moment: number(rest)?,
    })
}

#[tactic(auto, unfolding(crate::specs::Lines::open_of))]
fn read_open(rest: &[u8]) -> Option<ScriptLine>
    ensures { result ≡ open_of rest.now }
{
    let (first, rest) = split(b' ', rest)?;
    open_to(name(first)?, rest)
}

/// The peer that an end opens towards, and the addresses.
#[tactic(auto, unfolding(crate::specs::Lines::open_to))]
fn open_to(name: Name, rest: &[u8]) -> Option<ScriptLine>
    ensures { result ≡ open_to name rest.now }
{
    match split(b' ', rest) {
        Some((first, rest)) => Some(ScriptLine::Towards {
            name,
            peer: crate::fields::name(first)?,
            addresses: addresses(rest)?,
            aim: AimLine::Open,
        }),
        None => Some(ScriptLine::Towards {
            name,
            peer: crate::fields::name(rest)?,
            addresses: Candidates::new(),
            aim: AimLine::Open,
        }),
    }
}

#[tactic(auto, unfolding(crate::specs::Lines::cancel_of))]
fn read_cancel(rest: &[u8]) -> Option<ScriptLine>
    ensures { result ≡ cancel_of rest.now }
{
    let (first, rest) = split(b' ', rest)?;
    Some(ScriptLine::Call {
        name: name(first)?,
        call: CallLine::Cancel {
            number: number(rest)?,
        },
    })
}

#[tactic(auto, unfolding(crate::specs::Lines::close_of))]
fn read_close(rest: &[u8]) -> Option<ScriptLine>
    ensures { result ≡ close_of rest.now }
{
    let (first, rest) = split(b' ', rest)?;
    Some(ScriptLine::Call {
        name: name(first)?,
        call: CallLine::Close {
            near: number32(rest)?,
        },
    })
}

#[tactic(auto, unfolding(crate::specs::Lines::learn_of))]
fn read_learn(rest: &[u8]) -> Option<ScriptLine>
    ensures { result ≡ learn_of rest.now }
{
    Some(ScriptLine::Call {
        name: name(rest)?,
        call: CallLine::Learn,
    })
}

#[tactic(auto, unfolding(crate::specs::Lines::advance_of))]
fn read_advance(rest: &[u8]) -> Option<ScriptLine>
    ensures { result ≡ advance_of rest.now }
{
    Some(ScriptLine::Call {
        name: name(rest)?,
        call: CallLine::Advance,
    })
}

#[tactic(auto, unfolding(crate::specs::Lines::tick_of))]
fn read_tick(rest: &[u8]) -> Option<ScriptLine>
    ensures { result ≡ tick_of rest.now }
{
    Some(ScriptLine::Call {
        name: name(rest)?,
        call: CallLine::Tick,
    })
}

#[tactic(auto, unfolding(crate::specs::Lines::deliver_of))]
fn read_deliver(rest: &[u8]) -> Option<ScriptLine>
    ensures { result ≡ deliver_of rest.now }
{
    let (first, rest) = split(b' ', rest)?;
    let (second, rest) = split(b' ', rest)?;
    let number = number(first)?;
    Some(ScriptLine::Bring {
        name: name(second)?,
        from: address(rest)?,
        what: BringLine::Deliver { number },
    })
}

#[tactic(auto, unfolding(crate::specs::Lines::bent_of))]
fn read_bent(rest: &[u8]) -> Option<ScriptLine>
    ensures { result ≡ bent_of rest.now }
{
    let (first, rest) = split(b' ', rest)?;
    let (second, rest) = split(b' ', rest)?;
    let (third, rest) = split(b' ', rest)?;
    let what = BringLine::Bent {
        number: number(first)?,
        place: number(second)?,
    };
    Some(ScriptLine::Bring {
        name: name(third)?,
        from: address(rest)?,
        what,
    })
}

/// An end, an address, and bytes, at most so many.
#[tactic(auto, unfolding(crate::specs::Lines::bytes_at))]
fn bytes_at(
    alloc: Global,
    rest: &[u8],
    most: usize,
) -> Result<Option<(Name, Address, Message)>, Memory>
    requires { most < 2 ^ 32 }
    ensures value { IfOk result (λ parts. parts ≡ bytes_at most rest.now) }
    ensures memory { IfErr result (λ _. IsSome (bytes_at most rest.now)) }
{
    let Some((first, rest)) = split(b' ', rest) else {
        return Ok(None);
    };
    let Some((second, rest)) = split(b' ', rest) else {
        return Ok(None);
    };
    let Some(name) = name(first) else {
        return Ok(None);
    };
    let Some(from) = address(second) else {
        return Ok(None);
    };
    let Some(bytes) = bytes(alloc, rest, most)? else {
        return Ok(None);
    };
    Ok(Some((name, from, bytes)))
}

#[tactic(auto, unfolding(crate::specs::Lines::inject_of))]
fn read_inject(alloc: Global, rest: &[u8]) -> Result<Option<ScriptLine>, Memory>
    ensures value { IfOk result (λ said. said ≡ inject_of rest.now) }
    ensures memory { IfErr result (λ _. StepTakesMemory (inject_of rest.now)) }
{
    let Some((name, from, bytes)) = bytes_at(alloc, rest, TAKEN)? else {
        return Ok(None);
    };
    Ok(Some(ScriptLine::Bring {
        name,
        from,
        what: BringLine::Inject { bytes },
    }))
}

#[tactic(auto, unfolding(crate::specs::Lines::forge_of))]
fn read_forge(alloc: Global, rest: &[u8]) -> Result<Option<ScriptLine>, Memory>
    ensures value { IfOk result (λ said. said ≡ forge_of rest.now) }
    ensures memory { IfErr result (λ _. StepTakesMemory (forge_of rest.now)) }
{
    let Some((name, from, bytes)) = bytes_at(alloc, rest, PLAIN)? else {
        return Ok(None);
    };
    Ok(Some(ScriptLine::Bring {
        name,
        from,
        what: BringLine::Forge { bytes },
    }))
}

/// Reads what stands behind the first word of a line.
#[tactic(auto, unfolding(crate::specs::Lines::word_of))]
fn read_word(alloc: Global, word: &[u8], rest: &[u8]) -> Result<Option<ScriptLine>, Memory>
    ensures value { IfOk result (λ said. said ≡ word_of word.now rest.now) }
    ensures memory { IfErr result (λ _. StepTakesMemory (word_of word.now rest.now)) }
{
    if word == b"end".as_slice() {
        return Ok(read_end(rest));
    }
    if word == b"introduce".as_slice() {
        return Ok(read_introduce(rest));
    }
    if word == b"narrow".as_slice() {
        return Ok(read_narrow(rest));
    }
    if word == b"redirect".as_slice() {
        return Ok(read_redirect(rest));
    }
    if word == b"at".as_slice() {
        return Ok(read_at(rest));
    }
    if word == b"open".as_slice() {
        return Ok(read_open(rest));
    }
    if word == b"seek".as_slice() {
        return Ok(read_seek(rest));
    }
    if word == b"cancel".as_slice() {
        return Ok(read_cancel(rest));
    }
    if word == b"unseek".as_slice() {
        return Ok(read_unseek(rest));
    }
    if word == b"close".as_slice() {
        return Ok(read_close(rest));
    }
    if word == b"flow".as_slice() {
        return read_flow(alloc, rest);
    }
    if word == b"queue".as_slice() {
        return read_queue(alloc, rest);
    }
    if word == b"abandon".as_slice() {
        return Ok(read_abandon(rest));
    }
    if word == b"finish".as_slice() {
        return Ok(read_finish(rest));
    }
    if word == b"learn".as_slice() {
        return Ok(read_learn(rest));
    }
    if word == b"advance".as_slice() {
        return Ok(read_advance(rest));
    }
    if word == b"tick".as_slice() {
        return Ok(read_tick(rest));
    }
    if word == b"deliver".as_slice() {
        return Ok(read_deliver(rest));
    }
    if word == b"bent".as_slice() {
        return Ok(read_bent(rest));
    }
    if word == b"inject".as_slice() {
        return read_inject(alloc, rest);
    }
    if word == b"forge".as_slice() {
        return read_forge(alloc, rest);
    }
    if word == b"translator".as_slice() {
        return Ok(read_translator(rest));
    }
    if word == b"place".as_slice() {
        return Ok(read_place(rest));
    }
    if word == b"carry".as_slice() {
        return Ok(read_carry(rest));
    }
    Ok(None)
}

/// Reads a step.
#[tactic(auto, unfolding(crate::specs::Lines::step_of))]
fn read_step(alloc: Global, line: &[u8]) -> Result<Option<ScriptLine>, Memory>
    ensures value { IfOk result (λ said. said ≡ step_of line.now) }
    ensures memory { IfErr result (λ _. StepTakesMemory (step_of line.now)) }
{
    if line.len() > LINE {
        return Ok(None);
    }
    match split(b' ', line) {
        Some((word, rest)) => read_word(alloc, word, rest),
        None => Ok(None),
    }
}

/// Whether a line is skipped: it is empty or a comment.
fn is_skipped(line: &[u8]) -> bool
    ensures { IsTrue result ↔ IsSkipped line.now }
{
    match line {
        [] => true,
        [byte, ..] => *byte == b'#',
    }
}

/// Reads a line, which is given without its LF (own form).
pub fn read_line(alloc: Global, line: &[u8]) -> Result<Said, Memory>
    // What is said of the line.
    ensures says { IfOk result (λ said. Says line.now said) }
    // Nothing else can be said of it.
    ensures only { (other : Said) → Says line.now other → IfOk result (λ said. said ≡ other) }

    // Memory can be wanting for bytes in digits alone: those of an `inject`, of a `forge` and of a
    // `queue`, and a flow's metadata.
    ensures memory { IfErr result (λ _. (said : ScriptLine) ×
        (IsLineOf line.now said × TakesMemory said)) }
{
    if is_skipped(line) {
        return Ok(Said::Nothing);
    }
    match read_step(alloc, line)? {
        Some(step) => Ok(Said::Step(step)),
        None => Ok(Said::Outside),
    }
}
