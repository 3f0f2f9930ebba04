//! What `replay` does with a line of a script.
ghost use Rattle.std.specs.Prelude.{◌≡◌, ◌++◌, ◌+◌, ◌<◌, ◌≤◌, ◌^◌, [], IfOk, OnOk, length, slice_get};
ghost use Rattle.rendezvous_world.specs.Seen.{group_secrets};
ghost use Rattle.rtmfp_report.specs.EntryText.{entries_text};
ghost use Rattle.rtmfp_script.specs.Grammar.{content_bytes};
ghost use Rattle.rendezvous_world.specs.Sent.{sent_in};
ghost use Rattle.rendezvous_world.specs.Sound.{AreBelow};
ghost use Rattle.rtmfp_play.specs.Play.{aim_step, behind_said, bring_step, call_step, name_at, names_of, number_of, place_by, placed_said, step_by, step_by_both, told_lost, told_next, told_of};
ghost use Rattle.rtmfp_play.specs.Playing.{PlayedAs, StaysAs, SteppedAs};

use crate::said::Said;
use end_places::Places;
use identity::ServiceName;
use placed_world::{LostLine, PlacedStep, PlacedWorld};
use rendezvous_world::{Addresses, JournalLine, MessageOptions, Refused, Step, StepFault, World};
use rtmfp_base::limits::LINE;
use rtmfp_forms::Address;
use rtmfp_report::{
    GroupKeys, push_call_refusal, push_entries, push_lost, push_open_refusal, push_row_refusal,
    push_seek_refusal,
};
use rtmfp_script::{
    AimLine, BringLine, CallLine, Candidates, Content, Said as LineSaid, ScriptLine, read_line,
};
use rtmfp_text::{Directory, Name, Named, Text};
use std::alloc::{AllocError, Global};

/// Does a line of a script in a world, and makes the text of its report by the keys of the group.
/// `scratch` holds a datagram meanwhile, and its memory is used again.
pub(crate) fn play_in(
    alloc: Global,
    world: &mut PlacedWorld,
    keys: &mut GroupKeys,
    scratch: &mut Vec<u8>,
    number: u64,
    line: &[u8],
    text: &mut Text,
) -> Result<Said, AllocError>
    requires keys { keys.old ≡ group_secrets }
    requires short { length line.now ≤ LINE }
    requires above { AreBelow world.old.world.lines number }
    requires fits { number < 2 ^ 32 }
    ensures played { IfOk result (λ said. PlayedAs said world.old number line.now world.new
        text.new) }
    ensures stays { IfOk result (λ said. StaysAs said world.old world.new [] text.new) }
    ensures above { IfOk result (λ said. said ≡ Said.Text → AreBelow world.new.world.lines (number + 1)) }
    ensures keys { keys.new ≡ keys.old }
{
    text.clear();
    match read_line(alloc, line) {
        Err(_) => Err(AllocError),
        Ok(LineSaid::Nothing) => Ok(Said::Text),
        Ok(LineSaid::Outside) => Ok(Said::Bad),
        Ok(LineSaid::Step(said)) => match step_said(alloc, world, said)? {
            Some(step) => take_step(world, keys, scratch, number, &step, text),
            None => Ok(Said::Bad),
        },
    }
}

/// Takes a step, and adds the text of its report.
fn take_step(
    world: &mut PlacedWorld,
    keys: &mut GroupKeys,
    scratch: &mut Vec<u8>,
    number: u64,
    step: &PlacedStep,
    text: &mut Text,
) -> Result<Said, AllocError>
    requires keys { keys.old ≡ group_secrets }
    requires above { AreBelow world.old.world.lines number }
    requires fits { number < 2 ^ 32 }
    ensures stepped { IfOk result (λ said. SteppedAs said world.old number step.now world.new
        text.old text.new) }
    ensures stays { IfOk result (λ said. StaysAs said world.old world.new text.old text.new) }
    ensures above { IfOk result (λ said. said ≡ Said.Text → AreBelow world.new.world.lines (number + 1)) }
    ensures keys { keys.new ≡ keys.old }
{
    let before = world.world();
    let lines = before.journal().lines().len();
    let sent = sent_so_far(before)?;
    match world.step(number, step) {
        Ok(lost) => {
            let after = world.world();
            tell(keys, after, sent, lines, scratch, text)?;
            tell_lost(after, number, lost, text)?;
            Ok(Said::Text)
        }
        Err(StepFault::NoEnd) => Ok(Said::Bad),
        Err(StepFault::NoDatagram) => Ok(Said::Bad),
        Err(StepFault::BadStep) => Ok(Said::Bad),
        Err(StepFault::Forged) => Ok(Said::Forged),
        Err(StepFault::Memory) => Err(AllocError),
    }
}

/// Keeps the keys of the sessions that sent in the line of the journal with this index, as their
/// end has them.
fn learn_line(keys: &mut GroupKeys, world: &World, at: usize)
    ensures { keys.new ≡ keys.old }
{
    if let Some(line) = world.journal().lines().get(at) {
        if let Some(end) = world.endpoint(line.end()) {
            keys.learn_from(line.out().entries(), end);
        }
    }
}

/// How many datagrams were sent so far. That there are 2^64-1 counts as want of memory.
pub fn sent_so_far(world: &World) -> Result<u64, AllocError>
    ensures { IfOk result (λ count. count ≡ length (sent_in world.now.lines)) }
{
    let count = world.sent_count();
    if count == u64::MAX {
        return Err(AllocError);
    }
    Ok(count)
}

// ---- the step that a line says

/// The step that a line says, among the ends and translators of a world; none where one that it
/// names isn't there.
pub(crate) fn step_said(
    alloc: Global,
    world: &PlacedWorld,
    said: ScriptLine,
) -> Result<Option<PlacedStep>, AllocError>
    ensures { IfOk result (λ step. step ≡ placed_said world.now said) }
{
    let ends = world.world().named();
    match said {
        ScriptLine::End {
            name,
            peers,
            sessions,
            cert,
        } => Ok(Some(PlacedStep::World(Step::End {
            name,
            max_peers: peers,
            max_sessions: sessions,
            cert,
        }))),
        ScriptLine::At { moment } => Ok(Some(PlacedStep::World(Step::At { moment }))),
        ScriptLine::Call { name, call } => call_said(alloc, ends, &name, call),
        ScriptLine::Towards {
            name,
            peer,
            addresses,
            aim,
        } => aim_said(alloc, ends, &name, &peer, addresses.as_slice(), aim),
        ScriptLine::Bring { name, from, what } => Ok(bring_said(ends, &name, from, what)),
        ScriptLine::Translator {
            name,
            mapping,
            filter,
            host,
            first,
        } => Ok(Some(PlacedStep::Translator {
            name,
            mapping,
            filter,
            host,
            first,
        })),
        ScriptLine::Place { name, at, behind } => {
            Ok(place_said(ends, world.places(), &name, at, behind))
        }
        ScriptLine::Carry { number } => Ok(Some(PlacedStep::Carry { number })),
    }
}

fn call_said(
    alloc: Global,
    ends: &Directory,
    name: &Name,
    call: CallLine,
) -> Result<Option<PlacedStep>, AllocError>
    ensures { IfOk result (λ step. step ≡ step_by (number_of ends.now name.now)
        (λ end. call_step end call)) }
{
    match ends.number_of(name) {
        Some(end) => Ok(Some(PlacedStep::World(call_step(alloc, end, call)?))),
        None => Ok(None),
    }
}

/// What an end is called to do.
fn call_step(alloc: Global, end: usize, call: CallLine) -> Result<Step, AllocError>
    ensures { IfOk result (λ step. step ≡ call_step end call) }
{
    match call {
        CallLine::Introduce => Ok(Step::Introduce { end }),
        CallLine::Narrow { limit } => Ok(Step::Narrow { end, limit }),
        CallLine::Seek { service, addresses } => seek_step(alloc, end, service, &addresses),
        CallLine::Unseek { near } => Ok(Step::Unseek { end, near }),
        CallLine::Cancel { number } => Ok(Step::Cancel { end, n: number }),
        CallLine::Close { near } => Ok(Step::Close { end, near }),
        CallLine::Flow {
            near,
            priority,
            metadata,
            answers,
        } => Ok(Step::Flow {
            end,
            near,
            priority,
            metadata,
            answers,
        }),
        CallLine::Queue {
            near,
            flow,
            deadline,
            resends,
            content,
        } => {
            let options = MessageOptions { deadline, resends };
            queue_step(alloc, end, near, flow, options, content)
        }
        CallLine::Abandon { near, flow, seq } => Ok(Step::Abandon {
            end,
            near,
            flow,
            seq,
        }),
        CallLine::Finish { near, flow } => Ok(Step::Finish { end, near, flow }),
        CallLine::Learn => Ok(Step::Learn { end }),
        CallLine::Advance => Ok(Step::Advance { end }),
        CallLine::Tick => Ok(Step::Tick { end }),
    }
}

fn seek_step(
    alloc: Global,
    end: usize,
    name: ServiceName,
    addresses: &Candidates,
) -> Result<Step, AllocError>
    ensures { IfOk result (λ step. step ≡ Step.Seek end name addresses.now) }
{
    let list = Addresses::of(Vec::from_slice(alloc, addresses.as_slice())?);
    Ok(Step::Seek { end, name, list })
}

fn queue_step(
    alloc: Global,
    end: usize,
    near: u32,
    flow: u64,
    options: MessageOptions,
    content: Content,
) -> Result<Step, AllocError>
    ensures { IfOk result (λ step. step
        ≡ Step.Queue end near flow options (content_bytes content)) }
{
    match content.into_message(alloc) {
        Ok(message) => Ok(Step::Queue {
            end,
            near,
            flow,
            options,
            message,
        }),
        Err(_) => Err(AllocError),
    }
}

fn aim_said(
    alloc: Global,
    ends: &Directory,
    name: &Name,
    peer: &Name,
    addresses: &[Address],
    aim: AimLine,
) -> Result<Option<PlacedStep>, AllocError>
    ensures { IfOk result (λ step. step ≡ step_by_both (number_of ends.now name.now)
        (number_of ends.now peer.now) (λ end other. aim_step end other addresses.now aim)) }
{
    let Some(end) = ends.number_of(name) else {
        return Ok(None);
    };
    let Some(peer) = ends.number_of(peer) else {
        return Ok(None);
    };
    let list = Addresses::of(Vec::from_slice(alloc, addresses)?);
    Ok(Some(PlacedStep::World(aim_step(end, peer, list, aim))))
}

/// What an end is called to do towards a peer.
fn aim_step(end: usize, peer: usize, list: Addresses, aim: AimLine) -> Step
    ensures { result ≡ aim_step end peer list aim }
{
    match aim {
        AimLine::Redirect => Step::Redirect { end, peer, list },
        AimLine::Open => Step::Open { end, peer, list },
    }
}

fn bring_said(ends: &Directory, name: &Name, from: Address, what: BringLine) -> Option<PlacedStep>
    ensures { result ≡ step_by (number_of ends.now name.now) (λ end. bring_step end from what) }
{
    let end = ends.number_of(name)?;
    Some(PlacedStep::World(bring_step(end, from, what)))
}

/// What is brought to an end from an address.
fn bring_step(end: usize, from: Address, what: BringLine) -> Step
    ensures { result ≡ bring_step end from what }
{
    match what {
        BringLine::Deliver { number } => Step::Deliver { number, end, from },
        BringLine::Bent { number, place } => Step::Bent {
            number,
            place: place as usize,
            end,
            from,
        },
        BringLine::Inject { bytes } => Step::Inject { end, from, bytes },
        BringLine::Forge { bytes } => Step::Forge {
            end,
            from,
            plain: bytes,
        },
    }
}

fn place_said(
    ends: &Directory,
    places: &Places,
    name: &Name,
    at: Address,
    behind: Option<Name>,
) -> Option<PlacedStep>
    ensures { result ≡ place_by (number_of ends.now name.now) at
        (behind_said places.now.translators behind) }
{
    let placed = ends.number_of(name)?;
    let behind = behind_said(places, behind)?;
    Some(PlacedStep::Place {
        end: placed,
        at,
        behind,
    })
}

/// What an end is placed behind; nothing where that isn't there.
fn behind_said(places: &Places, behind: Option<Name>) -> Option<Option<usize>>
    ensures { result ≡ behind_said places.now.translators behind }
{
    match behind {
        Some(name) => Some(Some(places.translator_named(&name)?)),
        None => Some(None),
    }
}

// ---- the report

/// Adds what is told of the line that the journal has more, if there is one, where so many
/// datagrams were sent before it.
fn tell(
    keys: &mut GroupKeys,
    world: &World,
    sent: u64,
    at: usize,
    scratch: &mut Vec<u8>,
    text: &mut Text,
) -> Result<(), AllocError>
    requires { keys.old ≡ group_secrets }
    ensures text { OnOk result (text.new ≡ text.old
        ++ told_next (names_of world.now) sent (slice_get world.now.lines at)) }
    ensures keys { keys.new ≡ keys.old }
{
    learn_line(keys, world, at);
    let lines = world.journal().lines();
    push_line(keys, world.named(), sent, lines, at, scratch, text)
}

/// Adds that a datagram was carried on this line and doesn't arrive, where one was.
fn tell_lost(
    world: &World,
    number: u64,
    lost: Option<LostLine>,
    text: &mut Text,
) -> Result<(), AllocError>
    ensures { OnOk result (text.new ≡ text.old ++ told_lost (names_of world.now) number lost) }
{
    match lost {
        Some(lost) => {
            let name = name_at(world.named().as_slice(), lost.end);
            push_lost(number, &name, lost.number, lost.lost, text)
        }
        None => Ok(()),
    }
}

/// Adds what is told of the line of the journal with this index, if there is one, where so many
/// datagrams were sent before it.
fn push_line(
    keys: &mut GroupKeys,
    ends: &Directory,
    sent: u64,
    lines: &[JournalLine],
    at: usize,
    scratch: &mut Vec<u8>,
    text: &mut Text,
) -> Result<(), AllocError>
    requires { keys.old ≡ group_secrets }
    ensures text { OnOk result (text.new ≡ text.old
        ++ told_next ends.now sent (slice_get lines.now at)) }
    ensures keys { keys.new ≡ keys.old }
{
    match lines.get(at) {
        Some(line) => push_told(keys, ends, sent, line, scratch, text),
        None => Ok(()),
    }
}

/// Adds what is told of a line of the journal.
fn push_told(
    keys: &mut GroupKeys,
    ends: &Directory,
    sent: u64,
    line: &JournalLine,
    scratch: &mut Vec<u8>,
    text: &mut Text,
) -> Result<(), AllocError>
    requires { keys.old ≡ group_secrets }
    ensures text { OnOk result (text.new ≡ text.old
        ++ told_of ends.now sent line.now line.now.refused) }
    ensures keys { keys.new ≡ keys.old }
{
    let name = name_at(ends.as_slice(), line.end());
    match line.refused() {
        Some(Refused::Open(refusal)) => push_open_refusal(line.line(), &name, &refusal, text),
        Some(Refused::Seek(refusal)) => push_seek_refusal(line.line(), &name, &refusal, text),
        Some(Refused::Call(refusal)) => push_call_refusal(line.line(), &name, &refusal, text),
        Some(Refused::Row(refusal)) => push_row_refusal(line.line(), &name, &refusal, text),
        None => push_done(keys, ends, &name, sent, line, scratch, text),
    }
}

/// Adds what a call did.
fn push_done(
    keys: &mut GroupKeys,
    ends: &Directory,
    name: &Name,
    sent: u64,
    line: &JournalLine,
    scratch: &mut Vec<u8>,
    text: &mut Text,
) -> Result<(), AllocError>
    requires { keys.old ≡ group_secrets }
    ensures text { OnOk result (text.new ≡ text.old
        ++ entries_text group_secrets ends.now line.now.line name.now sent line.now.out.entries) }
    ensures keys { keys.new ≡ keys.old }
{
    push_entries(
        keys,
        ends,
        line.line(),
        name,
        sent,
        line.out().entries(),
        scratch,
        text,
    )?;
    Ok(())
}

/// The name of the end with this number; no name where it isn't there.
pub(crate) fn name_at(ends: &[Named], who: usize) -> Name
    ensures { result ≡ name_at ends.now who }
{
    match ends.get(who) {
        Some(end) => end.name.again(),
        None => Name::none(),
    }
}
