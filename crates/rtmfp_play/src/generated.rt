//! The generated run: eight ends, and steps that a sequence of numbers picks.
ghost use Rattle.std.specs.Prelude.{◌≡◌, ◌+◌, ◌<◌, ◌≤◌, ◌^◌, ◌++◌, ◌∷◌, [], IfErr, IfOk, OnOk, codes};
ghost use Rattle.rendezvous_world.specs.Laws.{empty_world};
ghost use Rattle.rendezvous_world.specs.Sent.{sent_in};
ghost use Rattle.rendezvous_world.specs.Sound.{AreBelow};
ghost use Rattle.rtmfp_play.specs.Generated.{Begun, GeneratedEnds, Generates, StopsAtEnd, StopsAtStep, delivery, delivery_or_tick, end_address, end_step, generated_step, next_number, summary_of};
ghost use Rattle.rtmfp_play.specs.Play.{HistoryHolds};
ghost use Rattle.rtmfp_play.specs.Generating.{HandsOver, RunEnds, Summarizes, TakesStep};

use crate::play::sent_so_far;
use identity::Certificate;
use rendezvous_world::{Addresses, Step, StepFault, World};
use rtmfp_base::limits::STEPS;
use rtmfp_forms::Address;
use rtmfp_host::{Sink, Wrote};
use rtmfp_lines::Status;
use rtmfp_report::{Tally, push_summary};
use rtmfp_text::{Name, Text};
use std::alloc::{AllocError, Global};

/// How many ends there are.
const ENDS: u64 = 8;

/// What each number of the sequence is multiplied by, and what is added.
const MULTIPLIER: u64 = 6_364_136_223_846_793_005;

const INCREMENT: u64 = 1_442_695_040_888_963_407;

/// The milliseconds by which the moment goes on.
const PAUSE: u64 = 500;

/// Does so many generated steps, and writes their summary.
pub fn generate<K: Sink>(alloc: Global, seed: u64, steps: u64, sink: &mut K) -> Status
    requires { steps ≤ STEPS }
    ensures { GeneratedEnds seed steps result
        (K.seen sink.old) (K.seen sink.new) }
{
    let mut world = World::new(alloc);
    if let Err(status) = begin(&mut world) {
        return status;
    }
    if let Err(status) = go(alloc, &mut world, seed, steps) {
        return status;
    }
    write_summary(alloc, &world, steps, sink)
}

/// Makes the ends.
fn begin(world: &mut World) -> Result<(), Status>
    requires { world.old ≡ empty_world }
    ensures ok { OnOk result (Begun 8 world.new) }
    ensures below { OnOk result (AreBelow world.new.lines 9) }
    ensures err { IfErr result (RunEnds StopsAtEnd) }
{
    for who in 0..ENDS {
        let Ok(step) = end_step(who as u8) else {
            return Err(Status::Memory);
        };
        take(world, who + 1, &step)?;
    }
    Ok(())
}

/// Does so many generated steps.
fn go(alloc: Global, world: &mut World, seed: u64, steps: u64) -> Result<(), Status>
    requires few { steps ≤ STEPS }
    requires begun { Begun 8 world.old }
    requires below { AreBelow world.old.lines 9 }
    ensures ok { OnOk result (Generates seed steps world.new) }
    ensures err { IfErr result (RunEnds (λ Kind line. StopsAtStep Kind seed steps line)) }
{
    let mut x = seed;
    for count in 0..steps {
        x = next_number(x);
        match go_on(alloc, world, ENDS + count + 1, x) {
            Ok(()) => {}
            Err(status) => return Err(status),
        }
    }
    Ok(())
}

/// Takes the step that a number of the sequence picks.
fn go_on(alloc: Global, world: &mut World, line: u64, x: u64) -> Result<(), Status>
    requires above { AreBelow world.old.lines line }
    requires fits { line < 2 ^ 32 }
    ensures { TakesStep world.old line (generated_step world.old x) result world.new }
{
    match generated_step(alloc, world, x) {
        Ok(step) => take(world, line, &step),
        Err(_) => Err(Status::Memory),
    }
}

/// Takes the step of a line.
fn take(world: &mut World, line: u64, step: &Step) -> Result<(), Status>
    requires above { AreBelow world.old.lines line }
    requires fits { line < 2 ^ 32 }
    ensures { TakesStep world.old line step.now result world.new }
{
    match world.step(line, step) {
        Ok(()) => Ok(()),
        Err(StepFault::NoEnd) => Err(Status::BadScript(line)),
        Err(StepFault::NoDatagram) => Err(Status::BadScript(line)),
        Err(StepFault::BadStep) => Err(Status::BadScript(line)),
        Err(StepFault::Forged) => Err(Status::Forged(line)),
        Err(StepFault::Memory) => Err(Status::Memory),
    }
}

// ---- the steps

/// The step that makes an end.
fn end_step(who: u8) -> Result<Step, AllocError>
    requires { who < 8 }
    ensures { IfOk result (λ step. step ≡ end_step who) }
{
    let digit = b'0' + who;
    let Some(name) = Name::new(&[b'e', digit]) else {
        return Err(AllocError);
    };
    Ok(Step::End {
        name,
        max_peers: 65_536,
        max_sessions: 4_096,
        cert: end_cert(digit)?,
    })
}

/// The certificate of an end: an instance of 16 bytes, and the name. Both end with its digit.
fn end_cert(digit: u8) -> Result<Certificate, AllocError>
    ensures { IfOk result (λ cert. cert ≡ codes "generated-end-0" ++ digit ∷ codes "e"
        ++ digit ∷ []) }
{
    let mut bytes = *b"generated-end-0_e_";
    bytes[15] = digit;
    bytes[17] = digit;
    Certificate::read(&bytes).map_err(|_| AllocError)
}

/// The number after one, in the sequence of numbers.
fn next_number(x: u64) -> u64
    ensures { result ≡ next_number x }
{
    MULTIPLIER.wrapping_mul(x).wrapping_add(INCREMENT)
}

/// The step that a number of the sequence picks.
fn generated_step(alloc: Global, world: &World, x: u64) -> Result<Step, AllocError>
    ensures { IfOk result (λ step. step ≡ generated_step world.now x) }
{
    let drawn = x >> 33;
    let operation = drawn % 16;
    let end = (drawn / 16 % 8) as usize;
    let other = (drawn / 128 % 8) as usize;
    let back = drawn / 1024 % 16;
    if operation < 2 {
        return open_step(alloc, end, other);
    }
    if operation == 2 {
        return Ok(Step::Tick { end });
    }
    if operation == 3 {
        return pause(world.moment());
    }
    if operation == 4 {
        return Ok(Step::Cancel { end, n: back });
    }
    delivery_or_tick(world, end, back)
}

/// The moment goes on. One of more than 64 bits counts as want of memory.
fn pause(moment: u64) -> Result<Step, AllocError>
    ensures { IfOk result (λ step. step ≡ Step.At (moment + 500)) }
{
    match moment.checked_add(PAUSE) {
        Some(moment) => Ok(Step::At { moment }),
        None => Err(AllocError),
    }
}

/// The address of an end.
fn end_address(who: usize) -> Address
    requires { who < 8 }
    ensures { result ≡ end_address who }
{
    Address::v4([10, 0, 0, who as u8 + 1], 1935)
}

fn open_step(alloc: Global, end: usize, peer: usize) -> Result<Step, AllocError>
    requires { peer < 8 }
    ensures { IfOk result (λ step. step ≡ Step.Open end peer (end_address peer ∷ [])) }
{
    let list = Addresses::of(Vec::from_slice(alloc, &[end_address(peer)])?);
    Ok(Step::Open { end, peer, list })
}

/// One of the last 16 datagrams is delivered; where none was sent, the end does what is due.
fn delivery_or_tick(world: &World, end: usize, back: u64) -> Result<Step, AllocError>
    ensures { IfOk result (λ step. step ≡ delivery_or_tick (sent_in world.now.lines) end back) }
{
    let sent = sent_so_far(world)?;
    if sent == 0 {
        return Ok(Step::Tick { end });
    }
    let number = sent - back % sent;
    Ok(delivery(end, number, world.sent(number)))
}

/// A datagram reaches the end that it was sent to, from the address of the end that sent it.
fn delivery(end: usize, number: u64, sent: Option<(usize, Address)>) -> Step
    ensures { result ≡ delivery end number sent }
{
    match sent {
        Some((by, to)) => {
            if by < 8 {
                Step::Deliver {
                    number,
                    end: usize::from(to.host[3]).saturating_sub(1),
                    from: end_address(by),
                }
            } else {
                Step::Tick { end }
            }
        }
        None => Step::Tick { end },
    }
}

// ---- the summary

/// Tells that the history of a world holds.
fn holds(world: &World)
    ensures { HistoryHolds world.now }
{
    // Read for the prover alone: its clause is what is told.
    let _journal = world.journal();
}

/// Writes the line of a run that is over.
fn write_summary<K: Sink>(alloc: Global, world: &World, steps: u64, sink: &mut K) -> Status
    ensures summary { Summarizes steps world.now result
        (K.seen sink.old) (K.seen sink.new) }
    ensures holds { HistoryHolds world.now }
{
    holds(world);
    let mut text = Text::new(alloc);
    match summarize(world, steps, &mut text) {
        Ok(()) => hand_over(text.bytes(), sink),
        Err(_) => Status::Memory,
    }
}

/// Writes a text and passes it on.
fn hand_over<K: Sink>(text: &[u8], sink: &mut K) -> Status
    ensures { HandsOver text.now result (K.seen sink.old) (K.seen sink.new) }
{
    match sink.write(text) {
        Wrote::Done => match sink.flush() {
            Wrote::Done => Status::Done,
            Wrote::Failed => Status::SinkFault,
        },
        Wrote::Failed => Status::SinkFault,
    }
}

/// Adds the line of a run.
fn summarize(world: &World, steps: u64, text: &mut Text) -> Result<(), AllocError>
    ensures { OnOk result (text.new ≡ text.old ++ summary_of steps world.now) }
{
    let mut tally = Tally::new();
    for line in world.journal().lines() {
        tally.count(line.out().entries())?;
    }
    let Ok(kept) = u64::try_from(world.kept_pairs()) else {
        return Err(AllocError);
    };
    push_summary(
        world.named().as_slice().len() as u64,
        steps,
        &tally,
        kept,
        text,
    )
}
