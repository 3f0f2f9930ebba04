//! Lines of flows that are read.
ghost use Rattle.std.specs.Prelude.{◌≡◌, IfErr, IfOk, MatchOption, None, Some};
ghost use Rattle.rtmfp_script.specs.Lines.{abandon_of, answers_of, finish_of, flow_in, flow_of, queue_in, queue_of, session_at, StepTakesMemory};

use crate::bytes::hexadecimal;
use crate::content::read_content;
use crate::fields::{limit, limit32, name, number, number8, number32, split};
use crate::line::{CallLine, ScriptLine};
use rtmfp_base::Memory;
use rtmfp_text::Name;
use std::alloc::Global;

/// An end, a session ID, and what stands behind them.
#[tactic(auto, unfolding(crate::specs::Lines::session_at))]
fn session_at(rest: &[u8]) -> Option<(Name, u32, &[u8])>
    ensures { MatchOption result (session_at rest.now ≡ None) (λ parts. session_at rest.now
        ≡ Some (parts.0, parts.1, parts.2.now)) }
{
    let (first, rest) = split(b' ', rest)?;
    let (second, rest) = split(b' ', rest)?;
    Some((name(first)?, number32(second)?, rest))
}

#[tactic(auto, unfolding(crate::specs::Lines::flow_of))]
pub(crate) fn read_flow(alloc: Global, rest: &[u8]) -> Result<Option<ScriptLine>, Memory>
    ensures value { IfOk result (λ said. said ≡ flow_of rest.now) }
    ensures memory { IfErr result (λ _. StepTakesMemory (flow_of rest.now)) }
{
    let Some((name, near, rest)) = session_at(rest) else {
        return Ok(None);
    };
    flow_in(alloc, name, near, rest)
}

/// The flow that an end opens in a session.
#[tactic(auto, unfolding(crate::specs::Lines::flow_in))]
fn flow_in(alloc: Global, name: Name, near: u32, rest: &[u8]) -> Result<Option<ScriptLine>, Memory>
    ensures value { IfOk result (λ said. said ≡ flow_in name near rest.now) }
    ensures memory { IfErr result (λ _. StepTakesMemory (flow_in name near rest.now)) }
{
    let Some((first, rest)) = split(b' ', rest) else {
        return Ok(None);
    };
    let Some(priority) = number8(first) else {
        return Ok(None);
    };
    let Some((word, answers)) = answers(rest) else {
        return Ok(None);
    };
    let Some(metadata) = hexadecimal(alloc, word)? else {
        return Ok(None);
    };
    let call = CallLine::Flow {
        near,
        priority,
        metadata,
        answers,
    };
    Ok(Some(ScriptLine::Call { name, call }))
}

/// A word, and the number behind it, where there is one.
#[tactic(auto, unfolding(crate::specs::Lines::answers_of))]
fn answers(rest: &[u8]) -> Option<(&[u8], Option<u64>)>
    ensures { MatchOption result (answers_of rest.now ≡ None) (λ parts. answers_of rest.now
        ≡ Some (parts.0.now, parts.1)) }
{
    match split(b' ', rest) {
        Some((word, last)) => Some((word, Some(number(last)?))),
        None => Some((rest, None)),
    }
}

#[tactic(auto, unfolding(crate::specs::Lines::queue_of))]
pub(crate) fn read_queue(alloc: Global, rest: &[u8]) -> Result<Option<ScriptLine>, Memory>
    ensures value { IfOk result (λ said. said ≡ queue_of rest.now) }
    ensures memory { IfErr result (λ _. StepTakesMemory (queue_of rest.now)) }
{
    let Some((name, near, rest)) = session_at(rest) else {
        return Ok(None);
    };
    queue_in(alloc, name, near, rest)
}

/// The message that an end queues in a session.
#[tactic(auto, unfolding(crate::specs::Lines::queue_in))]
fn queue_in(alloc: Global, name: Name, near: u32, rest: &[u8]) -> Result<Option<ScriptLine>, Memory>
    ensures value { IfOk result (λ said. said ≡ queue_in name near rest.now) }
    ensures memory { IfErr result (λ _. StepTakesMemory (queue_in name near rest.now)) }
{
    let Some((first, rest)) = split(b' ', rest) else {
        return Ok(None);
    };
    let Some((second, rest)) = split(b' ', rest) else {
        return Ok(None);
    };
    let Some((third, rest)) = split(b' ', rest) else {
        return Ok(None);
    };
    let Some(flow) = number(first) else {
        return Ok(None);
    };
    let Some(deadline) = limit(second) else {
        return Ok(None);
    };
    let Some(resends) = limit32(third) else {
        return Ok(None);
    };
    let Some(content) = read_content(alloc, rest)? else {
        return Ok(None);
    };
    let call = CallLine::Queue {
        near,
        flow,
        deadline,
        resends,
        content,
    };
    Ok(Some(ScriptLine::Call { name, call }))
}

#[tactic(auto, unfolding(crate::specs::Lines::abandon_of))]
pub(crate) fn read_abandon(rest: &[u8]) -> Option<ScriptLine>
    ensures { result ≡ abandon_of rest.now }
{
    let (first, rest) = split(b' ', rest)?;
    let (second, rest) = split(b' ', rest)?;
    let (third, rest) = split(b' ', rest)?;
    Some(ScriptLine::Call {
        name: name(first)?,
        call: CallLine::Abandon {
            near: number32(second)?,
            flow: number(third)?,
            seq: number(rest)?,
        },
    })
}

#[tactic(auto, unfolding(crate::specs::Lines::finish_of))]
pub(crate) fn read_finish(rest: &[u8]) -> Option<ScriptLine>
    ensures { result ≡ finish_of rest.now }
{
    let (first, rest) = split(b' ', rest)?;
    let (second, rest) = split(b' ', rest)?;
    Some(ScriptLine::Call {
        name: name(first)?,
        call: CallLine::Finish {
            near: number32(second)?,
            flow: number(rest)?,
        },
    })
}
