//! A call that is handed over as one value.

ghost use Rattle.std.specs.Prelude.{◌≡◌};
ghost use Rattle.endpoint.specs.Calls.{Called, IsWithin, call_of, called_event};
ghost use Rattle.endpoint_model.specs.Log.{Extends};
ghost use Rattle.endpoint.specs.Answered.{added_row, began, done, flow_opened, queued, sought};
ghost use Rattle.endpoint.specs.Answered.{succeeded, ticked};

use crate::call::{Answered, EndCall};
use crate::endpoint::Endpoint;
use end_state::Outbox;
use endpoint_model::{CallRefusal, Draws, OpenRefusal, SeekRefusal};
use identity::Epd;
use introducer::RowRefusal;
use rtmfp_base::Memory;

impl Endpoint {
    /// Makes a call, as the method of its name does. The moment is noted by an open, a seek, a
    /// close and a tick alone, the draws are those of an open, a seek and a tick, and the outbox is
    /// that of all but a row, an introduction and a narrowing, whose limit is one that an end may
    /// have.
    pub fn call(
        &mut self,
        call: &EndCall<'_>,
        moment: u64,
        draws: &Draws,
        out: &mut Outbox,
    ) -> Answered
        requires { IsWithin call.now }
        ensures called { Called self.old moment (call_of call.now draws.now) result self.new out.old
            out.new }

        // The end stands for its log with this call.
        ensures stands { Extends self.old self.new
            (called_event moment (call_of call.now draws.now) result out.old.entries
            out.new.entries) }
    {
        self.make(call, moment, draws, out)
    }

    /// Makes a call.
    fn make(&mut self, call: &EndCall<'_>, moment: u64, draws: &Draws, out: &mut Outbox) -> Answered
        requires { IsWithin call.now }
        ensures { Called self.old moment (call_of call.now draws.now) result self.new out.old
            out.new }
    {
        match call {
            EndCall::Open { print, candidates } => {
                began(self.open(&Epd { print: **print }, candidates, moment, draws, out))
            }
            EndCall::Seek { name, candidates } => {
                sought(self.seek(name, candidates, moment, draws, out))
            }
            EndCall::Unseek { near } => done(self.unseek(*near, out)),
            EndCall::Cancel { n } => done(self.cancel(*n, out)),
            EndCall::Close { near } => done(self.close(*near, moment, out)),
            EndCall::OpenFlow {
                near,
                priority,
                metadata,
                answers,
            } => flow_opened(self.open_flow(*near, *priority, metadata, *answers, out)),
            EndCall::Queue {
                near,
                flow,
                message,
                options,
            } => queued(self.queue(*near, *flow, message, *options, out)),
            EndCall::Abandon { near, flow, seq } => done(self.abandon(*near, *flow, *seq, out)),
            EndCall::Finish { near, flow } => done(self.finish(*near, *flow, out)),
            EndCall::AddRow { print, addresses } => added_row(self.add_row(**print, addresses)),
            EndCall::Introduce => {
                self.introduce();
                Answered::Done
            }
            EndCall::Narrow(limit) => {
                self.narrow(*limit);
                Answered::Done
            }
            EndCall::Learn { secret } => succeeded(self.learn(**secret, out)),
            EndCall::Advance => succeeded(self.advance(out)),
            EndCall::Tick => ticked(self.tick(moment, draws, out)),
        }
    }
}

/// What an open answered.
fn began(answer: Result<u64, OpenRefusal>) -> Answered
    ensures { result ≡ began answer }
{
    match answer {
        Ok(n) => Answered::Began(n),
        Err(refusal) => Answered::NotOpened(refusal),
    }
}

/// What a seek answered.
fn sought(answer: Result<u32, SeekRefusal>) -> Answered
    ensures { result ≡ sought answer }
{
    match answer {
        Ok(near) => Answered::Searching(near),
        Err(refusal) => Answered::NotSought(refusal),
    }
}

/// What a call answered that gives no number.
fn done(answer: Result<(), CallRefusal>) -> Answered
    ensures { result ≡ done answer }
{
    match answer {
        Ok(()) => Answered::Done,
        Err(refusal) => Answered::Refused(refusal),
    }
}

/// What was answered where a flow was to be opened.
fn flow_opened(answer: Result<u64, CallRefusal>) -> Answered
    ensures { result ≡ flow_opened answer }
{
    match answer {
        Ok(flow) => Answered::FlowOpened(flow),
        Err(refusal) => Answered::Refused(refusal),
    }
}

/// What was answered where a message was to be queued.
fn queued(answer: Result<u64, CallRefusal>) -> Answered
    ensures { result ≡ queued answer }
{
    match answer {
        Ok(seq) => Answered::Queued(seq),
        Err(refusal) => Answered::Refused(refusal),
    }
}

/// What was answered where a generation was to be learnt, or gone over to.
fn succeeded(answer: Result<u64, CallRefusal>) -> Answered
    ensures { result ≡ succeeded answer }
{
    match answer {
        Ok(generation) => Answered::Succeeds(generation),
        Err(refusal) => Answered::Refused(refusal),
    }
}

/// What was answered where a row was to be added.
fn added_row(answer: Result<(), RowRefusal>) -> Answered
    ensures { result ≡ added_row answer }
{
    match answer {
        Ok(()) => Answered::Done,
        Err(refusal) => Answered::NotAdded(refusal),
    }
}

/// What a tick answered.
fn ticked(answer: Result<(), Memory>) -> Answered
    ensures { result ≡ ticked answer }
{
    match answer {
        Ok(()) => Answered::Done,
        Err(_) => Answered::OutOfMemory,
    }
}
