//! The flows of one session, and the calls on those that it sends.

ghost use Rattle.std.specs.Prelude.{◌≡◌, ◌<◌, ◌∷◌, [], length, Some, None, Ok, Err, IfOk, OnErr};
ghost use Rattle.std.specs.Prelude.{IfErr, MatchOption, slice_get, IsOk};
ghost use Rattle.flow_send.specs.declared.outcome.QueueRefusal.{QueueRefusal};
ghost use Rattle.session_flows.specs.Keeping.{may_be_due, no_flows};
ghost use Rattle.session_flows.specs.Keeping.{Opened, Queued, Abandoned, Finished};
ghost use Rattle.session_flows.specs.Calling.{open_refusal, opening, queue_refused, queueing};
ghost use Rattle.session_flows.specs.Calling.{abandon_refused, abandoning, finish_refused};
ghost use Rattle.session_flows.specs.Calling.{finishing, queue_refusal_of, queue_answer};
ghost use Rattle.session_flows.specs.Calling.{abandon_answer, finish_answer};
ghost use Rattle.session_flows.specs.Laws.{IsSound};

use crate::kept::Kept;
use crate::refusal::CallRefusal;
use crate::taking::TakingFlow;
use flow_send::{FlowSender, MessageOptions, NotQueued, QueueRefusal};
use rtmfp_base::limits::{FLOWS, METADATA, PRIORITY};
use std::alloc::Global;
use std::marker::Model;

/// The flows of one session. Contracts see the sending ones by their IDs, 0, 1, 2 and on, and the
/// receiving ones by rising IDs.
#[derive(Drop)]
pub struct Flows {
    pub(crate) alloc: Global,
    pub(crate) sending: Vec<FlowSender>,
    pub(crate) taking: Vec<TakingFlow>,
    pub(crate) kept: Kept,
}

impl Model for Flows {
    ghost use Rattle.session_flows.specs.Keeping.{FlowsState};
    ghost use Rattle.session_flows.specs.Kept.{IsWhole};

    ghost Value = { FlowsState };

    ghost view = { λ f. record { sending = f.sending.items; taking = f.taking.items } };

    ghost invariant = { λ f. IsWhole
        (record { sending = f.sending.items; taking = f.taking.items }) f.kept };
}

impl Flows {
    /// No flow is there. It takes no memory.
    pub fn new(alloc: Global) -> Flows
        ensures { result ≡ no_flows }
    {
        Flows {
            alloc,
            sending: Vec::new(alloc),
            taking: Vec::new(alloc),
            kept: Kept::new(),
        }
    }

    /// Whether a sending flow isn't idle. Where all are nothing is due of the flows, whatever the
    /// moment: nothing is lost by time, no message is overdue, and nothing is sent.
    pub fn may_be_due(&self) -> bool
        ensures { result ≡ may_be_due self.now }
    {
        self.kept.any_busy()
    }

    /// Why `open_flow` would refuse, but for want of memory.
    pub fn open_refusal(&self, metadata: &[u8], priority: u8) -> Option<CallRefusal>
        ensures refusal { result ≡ open_refusal self.now (length metadata.now) priority }
        // At most 256 flows are there in either direction, the sending ones by their IDs and the
        // receiving ones by rising IDs.
        ensures sound { IsSound self.now }
    {
        if self.sending.len() >= FLOWS {
            return Some(CallRefusal::FlowsFull(FLOWS as u64));
        }
        if metadata.len() > METADATA || priority > PRIORITY {
            return Some(CallRefusal::WideMetadata(metadata.len() as u64));
        }
        None
    }

    /// Opens a flow with a priority of at most 7, the highest, metadata of at most 64 bytes, and
    /// the flow of the other end that it answers, where there is one. The answer is its ID.
    pub fn open_flow(
        &mut self,
        priority: u8,
        metadata: &[u8],
        answers: Option<u64>,
    ) -> Result<u64, CallRefusal>
        ensures did { IfOk result (λ id. opening self.old metadata.now answers priority
            ≡ record { flows = self.new; stated = Opened id ∷ [] }) }
        ensures refused { MatchOption (open_refusal self.old (length metadata.now) priority)
            (IfErr result (λ e. e ≡ CallRefusal.Memory)) (λ e. result ≡ Err e) }
        ensures err { OnErr result (self.new ≡ self.old) }
    {
        if let Some(refusal) = self.open_refusal(metadata, priority) {
            return Err(refusal);
        }
        let id = self.sending.len() as u64;
        let Ok(flow) = FlowSender::new(self.alloc, id, metadata, answers, priority, 1) else {
            return Err(CallRefusal::Memory);
        };
        if self.sending.push(flow).is_err() {
            return Err(CallRefusal::Memory);
        }
        Ok(id)
    }

    /// The index of a sending flow.
    pub(crate) fn sending_index(&self, flow: u64) -> Option<usize>
        ensures { MatchOption result (slice_get self.now.sending flow ≡ None)
            (λ at. (at ≡ flow) × (at < length self.now.sending)) }
    {
        if flow < self.sending.len() as u64 {
            Some(flow as usize)
        } else {
            None
        }
    }

    /// Why `queue` would refuse a message of a length, but for want of memory.
    pub fn queue_refusal(&self, flow: u64, length: u64) -> Option<CallRefusal>
        ensures { result ≡ queue_refused self.now flow length }
    {
        let Some(at) = self.sending_index(flow) else {
            return Some(CallRefusal::NoFlow);
        };
        match self.sending[at].refusal(length) {
            Some(refusal) => Some(CallRefusal::Queue(refusal)),
            None => None,
        }
    }

    /// Queues a message, and gives the number of its first fragment.
    pub fn queue(
        &mut self,
        flow: u64,
        message: &[u8],
        options: MessageOptions,
    ) -> Result<u64, CallRefusal>
        ensures did { IfOk result (λ seq. queueing self.old flow message.now options
            ≡ record { flows = self.new; stated = Queued flow seq message.now ∷ [] }) }
        ensures refused { MatchOption (queue_refused self.old flow (length message.now))
            (IfErr result (λ e. e ≡ CallRefusal.Memory)) (λ e. result ≡ Err e) }
        ensures err { OnErr result (self.new ≡ self.old) }
    {
        let Some(at) = self.sending_index(flow) else {
            return Err(CallRefusal::NoFlow);
        };
        let sender = &mut self.sending[at];
        let before = sender.flight();
        let queued = sender.queue(message, options);
        self.kept.note(options);
        self.kept.settle(before, sender);
        queue_answer(queued)
    }

    /// Why `abandon` would refuse.
    pub fn abandon_refusal(&self, flow: u64, seq: u64) -> Option<CallRefusal>
        ensures { result ≡ abandon_refused self.now flow seq }
    {
        let Some(at) = self.sending_index(flow) else {
            return Some(CallRefusal::NoFlow);
        };
        if self.sending[at].waits(seq) {
            None
        } else {
            Some(CallRefusal::NotQueued)
        }
    }

    /// Abandons the message that begins at a number. It takes no memory.
    pub fn abandon(&mut self, flow: u64, seq: u64) -> Result<(), CallRefusal>
        ensures did { IfOk result (λ _. abandoning self.old flow seq
            ≡ record { flows = self.new; stated = Abandoned flow seq ∷ [] }) }
        ensures refused { MatchOption (abandon_refused self.old flow seq)
            (result ≡ Ok tt) (λ e. result ≡ Err e) }
        ensures err { OnErr result (self.new ≡ self.old) }
    {
        let Some(at) = self.sending_index(flow) else {
            return Err(CallRefusal::NoFlow);
        };
        let sender = &mut self.sending[at];
        let before = sender.flight();
        let abandoned = sender.abandon(seq);
        self.kept.settle(before, sender);
        abandon_answer(abandoned)
    }

    /// Why `finish` would refuse.
    pub fn finish_refusal(&self, flow: u64) -> Option<CallRefusal>
        ensures { result ≡ finish_refused self.now flow }
    {
        let Some(at) = self.sending_index(flow) else {
            return Some(CallRefusal::NoFlow);
        };
        if self.sending[at].finished() {
            Some(CallRefusal::Finished)
        } else {
            None
        }
    }

    /// Finishes a flow, and gives its last number. It takes no memory.
    pub fn finish(&mut self, flow: u64) -> Result<u64, CallRefusal>
        ensures did { IfOk result (λ seq. finishing self.old flow
            ≡ record { flows = self.new; stated = Finished flow seq ∷ [] }) }
        ensures refused { MatchOption (finish_refused self.old flow)
            (IsOk result) (λ e. result ≡ Err e) }
        ensures err { OnErr result (self.new ≡ self.old) }
    {
        let Some(at) = self.sending_index(flow) else {
            return Err(CallRefusal::NoFlow);
        };
        let sender = &mut self.sending[at];
        let before = sender.flight();
        let last = sender.finish();
        self.kept.settle(before, sender);
        finish_answer(last)
    }
}

/// A sender's answer to a message, as the call tells it.
fn queue_answer(queued: Result<u64, QueueRefusal>) -> Result<u64, CallRefusal>
    ensures { result ≡ queue_answer queued }
{
    match queued {
        Ok(seq) => Ok(seq),
        Err(refusal) => Err(queue_refusal_of(refusal)),
    }
}

fn abandon_answer(abandoned: Result<(), NotQueued>) -> Result<(), CallRefusal>
    ensures { result ≡ abandon_answer abandoned }
{
    match abandoned {
        Ok(()) => Ok(()),
        Err(_) => Err(CallRefusal::NotQueued),
    }
}

fn finish_answer(last: Option<u64>) -> Result<u64, CallRefusal>
    ensures { result ≡ finish_answer last }
{
    match last {
        Some(seq) => Ok(seq),
        None => Err(CallRefusal::Finished),
    }
}

/// The refusal of a message, as the call tells it.
fn queue_refusal_of(refusal: QueueRefusal) -> CallRefusal
    ensures { result ≡ queue_refusal_of refusal }
{
    match refusal {
        QueueRefusal::Memory => CallRefusal::Memory,
        other => CallRefusal::Queue(other),
    }
}
