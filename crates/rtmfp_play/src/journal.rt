//! What `replay --journal` does with a line of a script.

ghost use Rattle.std.specs.Prelude.{◌≡◌, ◌++◌, ◌+◌, ◌<◌, ◌≤◌, ◌^◌, [], IfErr, IfOk, OnOk, length, slice_get};
ghost use Rattle.placed_world.specs.Stepping.{Placed};
ghost use Rattle.rendezvous_world.specs.History.{history_of};
ghost use Rattle.rendezvous_world.specs.Sound.{AreBelow};
ghost use Rattle.rtmfp_play.specs.Journaled.{IsInTime, IsRefusedStep, JournaledSaid, JournaledStep, event_text, has_begun, heads_unless, is_late, next_text, refused_as};
ghost use Rattle.rtmfp_play.specs.Journaling.{JournaledAs};
ghost use Rattle.rtmfp_play.specs.Moments.{AreMomentsOf};
ghost use Rattle.rtmfp_play.specs.Play.{HistoryHolds};
ghost use Rattle.rtmfp_play.specs.Playing.{StaysAs};

use crate::moments::{find_room, moment_at, moment_of, raise};
use crate::play::{name_at, step_said};
use crate::said::Said;
use placed_world::{LostLine, PlacedStep, PlacedWorld};
use rendezvous_world::{JournalLine, StepFault, World};
use rtmfp_base::limits::LINE;
use rtmfp_script::{Said as LineSaid, ScriptLine, read_line};
use rtmfp_text::Text;
use std::alloc::{AllocError, Global};
use world_logs::{push_heads, push_line};

/// Does a line of a script in a world, and makes the text that it adds to the logs. `moments` are
/// the largest that its ends were given so far, in milliseconds.
pub(crate) fn journal_in(
    alloc: Global,
    world: &mut PlacedWorld,
    moments: &mut Vec<u64>,
    number: u64,
    line: &[u8],
    text: &mut Text,
) -> Result<Said, AllocError>
    requires moments { AreMomentsOf moments.old.items world.old.world }
    requires short { length line.now ≤ LINE }
    requires above { AreBelow world.old.world.lines number }
    requires fits { number < 2 ^ 32 }
    ensures journaled { IfOk result (λ said. JournaledAs said world.old number line.now world.new
        text.new) }
    ensures stays { IfOk result (λ said. StaysAs said world.old world.new [] text.new) }
    ensures above { IfOk result (λ said. said ≡ Said.Text → AreBelow world.new.world.lines (number + 1)) }
    ensures moments { AreMomentsOf moments.new.items world.new.world }
{
    text.clear();
    match read_line(alloc, line) {
        Err(_) => Err(AllocError),
        Ok(LineSaid::Nothing) => Ok(Said::Text),
        Ok(LineSaid::Outside) => Ok(Said::Bad),
        Ok(LineSaid::Step(said)) => journal_said(alloc, world, moments, number, said, text),
    }
}

/// Does what a line says. An end after an event began is outside the grammar.
fn journal_said(
    alloc: Global,
    world: &mut PlacedWorld,
    moments: &mut Vec<u64>,
    number: u64,
    said: ScriptLine,
    text: &mut Text,
) -> Result<Said, AllocError>
    requires moments { AreMomentsOf moments.old.items world.old.world }
    requires above { AreBelow world.old.world.lines number }
    requires fits { number < 2 ^ 32 }
    ensures said { IfOk result (λ told. JournaledSaid told world.old number said world.new text.old
        text.new) }
    ensures stays { IfOk result (λ told. StaysAs told world.old world.new text.old text.new) }
    ensures above { IfOk result (λ told. told ≡ Said.Text → AreBelow world.new.world.lines (number + 1)) }
    ensures moments { AreMomentsOf moments.new.items world.new.world }
{
    if is_late(world.world(), &said) {
        return Ok(Said::Bad);
    }
    match step_said(alloc, world, said)? {
        Some(step) => journal_step(alloc, world, moments, number, &step, text),
        None => Ok(Said::Bad),
    }
}

/// Whether an event began.
pub(crate) fn has_begun(world: &World) -> bool
    ensures { result ≡ has_begun (history_of world.now) }
{
    !world.journal().lines().is_empty()
}

/// Whether a line says an end after an event began.
fn is_late(world: &World, said: &ScriptLine) -> bool
    ensures { result ≡ is_late (history_of world.now) said.now }
{
    match said {
        ScriptLine::End { .. } => has_begun(world),
        _ => false,
    }
}

// ---- a step

/// Takes a step, and adds what it adds to the logs.
fn journal_step(
    alloc: Global,
    world: &mut PlacedWorld,
    moments: &mut Vec<u64>,
    number: u64,
    step: &PlacedStep,
    text: &mut Text,
) -> Result<Said, AllocError>
    requires moments { AreMomentsOf moments.old.items world.old.world }
    requires in_time { IsInTime world.old step.now }
    requires above { AreBelow world.old.world.lines number }
    requires fits { number < 2 ^ 32 }
    ensures stepped { IfOk result (λ said. JournaledStep said world.old number step.now world.new
        text.old text.new) }
    ensures stays { IfOk result (λ said. StaysAs said world.old world.new text.old text.new) }
    ensures above { IfOk result (λ said. said ≡ Said.Text → AreBelow world.new.world.lines (number + 1)) }
    ensures moments { AreMomentsOf moments.new.items world.new.world }
{
    let before = world.world();
    let begun = has_begun(before);
    let lines = before.journal().lines().len();
    match take_step(world, moments, number, step) {
        Ok(_) => {
            push_next(alloc, world.world(), begun, moments.as_slice(), lines, text)?;
            Ok(Said::Text)
        }
        Err(fault) => match refused_as(fault) {
            Some(said) => Ok(said),
            None => Err(AllocError),
        },
    }
}

/// What a line is whose step was refused for this fault; none for want of memory.
fn refused_as(fault: StepFault) -> Option<Said>
    ensures { result ≡ refused_as fault }
{
    match fault {
        StepFault::NoEnd => Some(Said::Bad),
        StepFault::NoDatagram => Some(Said::Bad),
        StepFault::BadStep => Some(Said::Bad),
        StepFault::Forged => Some(Said::Forged),
        StepFault::Memory => None,
    }
}

/// Takes a step, and keeps the moments of the ends.
fn take_step(
    world: &mut PlacedWorld,
    moments: &mut Vec<u64>,
    number: u64,
    step: &PlacedStep,
) -> Result<Option<LostLine>, StepFault>
    requires moments { AreMomentsOf moments.old.items world.old.world }
    requires in_time { IsInTime world.old step.now }
    requires above { AreBelow world.old.world.lines number }
    requires fits { number < 2 ^ 32 }
    ensures ok { IfOk result (λ lost. Placed world.old number step.now lost world.new) }
    ensures err { IfErr result (λ fault. IsRefusedStep world.old step.now fault world.new) }
    ensures holds { OnOk result (HistoryHolds world.new.world) }
    ensures moments { AreMomentsOf moments.new.items world.new.world }
{
    let before = world.world();
    let lines = before.journal().lines().len();
    let given = moment_of(before.moment(), step);
    let Ok(()) = find_room(before.named().as_slice().len(), moments) else {
        return Err(StepFault::Memory);
    };
    let taken = world.step(number, step);
    raise(world.world().journal().lines(), lines, given, moments);
    taken
}

// ---- the text

/// Adds the lines of what ends were given first, unless an event began.
pub(crate) fn push_unless(begun: bool, world: &World, text: &mut Text) -> Result<(), AllocError>
    ensures { OnOk result (text.new ≡ text.old ++ heads_unless begun world.now.ends) }
{
    if begun {
        return Ok(());
    }
    push_heads(world, text)
}

/// Adds what the line of the journal with this index adds to the logs, if there is one.
fn push_next(
    alloc: Global,
    world: &World,
    begun: bool,
    moments: &[u64],
    at: usize,
    text: &mut Text,
) -> Result<(), AllocError>
    ensures { OnOk result (text.new ≡ text.old
        ++ next_text begun world.now.ends moments.now (slice_get world.now.lines at)) }
{
    match world.journal().lines().get(at) {
        Some(line) => push_told(alloc, world, begun, moments, line, text),
        None => Ok(()),
    }
}

/// Adds the lines of the event that a line of the journal tells. Those of what ends were given
/// first stand before the first event.
fn push_told(
    alloc: Global,
    world: &World,
    begun: bool,
    moments: &[u64],
    line: &JournalLine,
    text: &mut Text,
) -> Result<(), AllocError>
    ensures { OnOk result (text.new ≡ text.old
        ++ event_text begun world.now.ends moments.now line.now) }
{
    push_unless(begun, world, text)?;
    let end = line.end();
    let name = name_at(world.named().as_slice(), end);
    push_line(alloc, world, line, &name, moment_at(moments, end), text)
}
