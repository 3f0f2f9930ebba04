//! The calls of ends that steps make.

ghost use Rattle.std.specs.Prelude.{◌≡◌, ◌<◌, ◌≤◌, ◌^◌, [], false, length, None, true};
ghost use Rattle.endpoint.specs.Calls.{Called, answer_of};
ghost use Rattle.endpoint_model.specs.Event.{Receive};
ghost use Rattle.endpoint_model.specs.Log.{Step as StepOf};
ghost use Rattle.rendezvous_world.specs.Calls.{answer_to_datagram};
ghost use Rattle.rendezvous_world.specs.Deed.{deed_of, narrows_beyond};
ghost use Rattle.rendezvous_world.specs.Entering.{CallsAnEnd, FoundNone, IsUndone, IsWithinBy, event_by, made_by, refused_in, stopped_in};
ghost use Rattle.rendezvous_world.specs.Line.{refused_kept, stopped_kept};
ghost use Rattle.rendezvous_world.specs.Stepping.{HasItsAnswer};

use crate::draws::draws_of;
use crate::journal::{LineAnswer, Refused};
use crate::step::{Deed, DeedCall, Step};
use endpoint::{
    Answered, CallRefusal, Draws, EndCall, Endpoint, OpenRefusal, Outbox, RowRefusal, SeekRefusal,
    Stopped,
};
use rtmfp_forms::Address;

/// What a call answered.
#[derive(Clone, Copy)]
pub(crate) struct Outcome {
    pub(crate) answer: LineAnswer,
    /// It was refused for want of memory: it added nothing, and the end is as before, but that an
    /// open, a seek or a close has noted the moment.
    pub(crate) undone: bool,
}

/// Makes the call of the step of a line at a moment. It is given the fingerprint of the peer of an
/// open or a row, or the secret that is learnt, and the bytes of the datagram that the step brings.
pub(crate) fn call_end(
    endpoint: &mut Endpoint,
    given: &[u8; 32],
    line: u64,
    moment: u64,
    step: &Step,
    bytes: &mut [u8],
    out: &mut Outbox,
) -> Outcome
    requires calls { CallsAnEnd step.now }
    requires limits { narrows_beyond (deed_of step.now) ≡ false }
    requires fits { line < 2 ^ 32 }
    requires short { length bytes.old ≤ 2048 }
    requires empty { out.old.entries ≡ [] }
    ensures event { StepOf endpoint.old (event_by given.now line moment step.now bytes.old
        (refused_kept result.answer) (stopped_kept result.answer) out.new.entries) endpoint.new }
    ensures answer { result.undone ≡ false →
        HasItsAnswer step.now (refused_kept result.answer) (stopped_kept result.answer) }
    ensures undone { result.undone ≡ true →
        IsUndone given.now moment step.now endpoint.old endpoint.new }
{
    let draws = draws_of(line);
    match step.deed() {
        Deed::NewEnd { .. } => unreachable!(),
        Deed::NewMoment(_) => unreachable!(),
        Deed::Call(_, call) => outcome_of(make(endpoint, &call, given, moment, &draws, out)),
        Deed::Bring(_, from, _) => receive(endpoint, from, moment, bytes, &draws, out),
    }
}

/// Makes a call, given the fingerprint of the end that it names or the secret that it learns.
fn make(
    endpoint: &mut Endpoint,
    call: &DeedCall<'_>,
    given: &[u8; 32],
    moment: u64,
    draws: &Draws,
    out: &mut Outbox,
) -> Answered
    requires { IsWithinBy call.now }
    ensures { Called endpoint.old moment (made_by call.now given.now draws.now) result endpoint.new
        out.old out.new }
{
    match call {
        DeedCall::Open(_, list) => {
            let candidates = list.as_slice();
            let print = given;
            endpoint.call(&EndCall::Open { print, candidates }, moment, draws, out)
        }
        DeedCall::AddRow(_, list) => {
            let addresses = list.as_slice();
            let print = given;
            endpoint.call(&EndCall::AddRow { print, addresses }, moment, draws, out)
        }
        DeedCall::Learn => {
            let secret = given;
            endpoint.call(&EndCall::Learn { secret }, moment, draws, out)
        }
        DeedCall::Plain(call) => endpoint.call(call, moment, draws, out),
    }
}

/// What a line tells of an answer, and whether it is that no memory was found, but for a tick's.
fn outcome_of(answered: Answered) -> Outcome
    ensures refused { refused_kept result.answer ≡ refused_in (answer_of answered) }
    ensures stopped { stopped_kept result.answer ≡ stopped_in (answer_of answered) }
    ensures undone { result.undone ≡ true → FoundNone (answer_of answered) }
    ensures done { result.undone ≡ false → FoundNone (answer_of answered) → ⊥ }
{
    Outcome {
        answer: kept_of(&answered),
        undone: found_none(&answered),
    }
}

/// What a line tells of an answer. A number that was given its entry has as well.
fn kept_of(answered: &Answered) -> LineAnswer
    ensures refused { refused_kept result ≡ refused_in (answer_of answered.now) }
    ensures stopped { stopped_kept result ≡ stopped_in (answer_of answered.now) }
{
    match answered {
        Answered::NotOpened(refusal) => LineAnswer::Refused(Refused::Open(*refusal)),
        Answered::NotSought(refusal) => LineAnswer::Refused(Refused::Seek(*refusal)),
        Answered::Refused(refusal) => LineAnswer::Refused(Refused::Call(*refusal)),
        Answered::NotAdded(refusal) => LineAnswer::Refused(Refused::Row(*refusal)),
        Answered::OutOfMemory => LineAnswer::Stopped(Stopped {
            taken: false,
            chunks: 0,
        }),
        Answered::Began(_) => LineAnswer::Done,
        Answered::Searching(_) => LineAnswer::Done,
        Answered::FlowOpened(_) => LineAnswer::Done,
        Answered::Queued(_) => LineAnswer::Done,
        Answered::Succeeds(_) => LineAnswer::Done,
        Answered::Done => LineAnswer::Done,
    }
}

/// Whether a call was refused for want of memory.
fn found_none(answered: &Answered) -> bool
    ensures yes { result ≡ true → FoundNone (answer_of answered.now) }
    ensures no { result ≡ false → FoundNone (answer_of answered.now) → ⊥ }
{
    match answered {
        Answered::NotOpened(OpenRefusal::Memory) => true,
        Answered::NotSought(SeekRefusal::Memory) => true,
        Answered::Refused(CallRefusal::Memory) => true,
        Answered::NotAdded(RowRefusal::Memory) => true,
        _ => false,
    }
}

/// Brings a datagram from an address.
fn receive(
    endpoint: &mut Endpoint,
    from: &Address,
    moment: u64,
    bytes: &mut [u8],
    draws: &Draws,
    out: &mut Outbox,
) -> Outcome
    requires short { length bytes.old ≤ 2048 }
    requires empty { out.old.entries ≡ [] }
    ensures event { StepOf endpoint.old (record {
      moment = moment;
      call = Receive from.now bytes.old draws.now;
      answer = answer_to_datagram (stopped_kept result.answer);
      entries = out.new.entries;
    }) endpoint.new }
    ensures refused { refused_kept result.answer ≡ None }
    ensures undone { result.undone ≡ false }
{
    let answer = match endpoint.receive(*from, moment, bytes, draws, out) {
        Ok(()) => LineAnswer::Done,
        Err(stopped) => LineAnswer::Stopped(stopped),
    };
    Outcome {
        answer,
        undone: false,
    }
}
