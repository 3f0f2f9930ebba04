//! What a chunk would do, of which nothing is done yet: why it is discarded, or which flow it is of
//! and how much it states at most. Nothing changes, and none of it takes memory.

ghost use Rattle.std.specs.Prelude.{◌≡◌, ◌+◌, ◌<◌, ◌≤◌, ◌^◌, IfErr, IfOk, IfSome, None, OnOk, Some};
ghost use Rattle.std.specs.Prelude.{length, min, ◌-◌};
ghost use Rattle.rtmfp_data_chunks.specs.Chunk.{user_parts};
ghost use Rattle.rtmfp_data_chunks.specs.Taken.{chunk_of};
ghost use Rattle.flow_recv.specs.Outcome.{refusal};
ghost use Rattle.session_flows.specs.Causes.{cause_of, data_cause, early_cause, exception_cause};
ghost use Rattle.session_flows.specs.Causes.{is_there, receiver_cause};
ghost use Rattle.session_flows.specs.Chunks.{data_done, most_ready, rejecting};
ghost use Rattle.session_flows.specs.Judged.{IsJudged};
ghost use Rattle.session_flows.specs.Places.{index_from};

use crate::flows::Flows;
use crate::judged::JudgedData;
use crate::told::{tells_known, told_metadata};
use flow_recv::{FlowReceiver, FlowRefusal};
use rtmfp_base::Cause;
use rtmfp_base::limits::FLOWS;
use rtmfp_data_chunks::UserData;
use session_core::Session;

impl Flows {
    /// Why a user data chunk is discarded; or of which flow it is, and how many messages it hands
    /// over at most.
    pub fn judge_data(&self, session: &Session, chunk: &UserData<'_>) -> Result<JudgedData, Cause>
        ensures none { OnOk result
            (data_cause session.now self.now (user_parts chunk.now) ≡ None) }
        ensures judged { IfOk result
            (λ judged. IsJudged judged self.now (user_parts chunk.now)) }
        ensures refused { IfErr result
            (λ cause. data_cause session.now self.now (user_parts chunk.now) ≡ Some cause) }
        ensures enough { IfOk result (λ judged.
            length (data_done self.now (user_parts chunk.now)).stated ≤ judged.most) }
        ensures small { IfOk result (λ judged. judged.most ≤ 2 ^ 63 + 1) }
    {
        let at = self.taking_index(chunk.flow);
        if let Some(cause) = self.early_cause(session, chunk, at.is_some()) {
            return Err(cause);
        }
        match self.judge_receiver(at, chunk) {
            Ok(most) => Ok(JudgedData { at, most }),
            Err(cause) => Err(cause),
        }
    }

    /// The causes that come before those of the receiver.
    fn early_cause(&self, session: &Session, chunk: &UserData<'_>, there: bool) -> Option<Cause>
        requires { there ≡ is_there self.now (user_parts chunk.now) }
        ensures { result ≡ early_cause session.now self.now (user_parts chunk.now) }
    {
        if !session.is_held() {
            return Some(Cause::WrongState);
        }
        if !there && told_metadata(&chunk.options).is_none() {
            return Some(Cause::UnknownFlow);
        }
        if !tells_known(self.sending.len() as u64, &chunk.options) {
            return Some(Cause::UnknownFlow);
        }
        if !there && self.taking.len() >= FLOWS {
            return Some(Cause::FlowsFull(FLOWS as u64));
        }
        None
    }

    /// The cause of the receiver of the flow at an index, or of the one that the chunk would make;
    /// or how many messages the chunk hands over at most.
    fn judge_receiver(&self, at: Option<usize>, chunk: &UserData<'_>) -> Result<usize, Cause>
        requires at { at ≡ index_from 0 chunk.now.flow self.now.taking }
        requires within { IfSome at (λ i. i < length self.now.taking) }
        ensures none { OnOk result (receiver_cause self.now (user_parts chunk.now) ≡ None) }
        ensures most { IfOk result (λ most. most ≡ most_ready self.now chunk.now.flow) }
        ensures refused { IfErr result
            (λ cause. receiver_cause self.now (user_parts chunk.now) ≡ Some cause) }
        ensures small { IfOk result (λ most. most ≤ 2 ^ 63 + 1) }
    {
        match at {
            Some(at) => most_or_cause(&self.taking[at].receiver, chunk),
            None => {
                let first = told_metadata(&chunk.options).unwrap_or(0);
                let receiver = FlowReceiver::new(self.alloc, first);
                most_or_cause(&receiver, chunk)
            }
        }
    }

    /// Why an exception is discarded; or how much it states, or 2 ^ 64 - 1 where it is more: the
    /// messages that are abandoned, and the end of the flow where it wasn't finished.
    pub fn judge_exception(&self, session: &Session, flow: u64) -> Result<usize, Cause>
        ensures none { OnOk result (exception_cause session.now self.now flow ≡ None) }
        ensures there { OnOk result (flow < length self.now.sending) }
        ensures count { IfOk result
            (λ count. count ≡ min (length (rejecting self.now flow).stated) (2 ^ 64 - 1)) }
        ensures refused { IfErr result
            (λ cause. exception_cause session.now self.now flow ≡ Some cause) }
        ensures exact { IfOk result
            (λ count. count < 2 ^ 63 → length (rejecting self.now flow).stated ≡ count) }
    {
        if !session.is_held() {
            return Err(Cause::WrongState);
        }
        match self.sending_index(flow) {
            Some(at) => Ok(self.count_rejected(at)),
            None => Err(Cause::UnknownFlow),
        }
    }

    /// How much an exception for the flow at an index states, or 2 ^ 64 - 1 where it is more.
    fn count_rejected(&self, at: usize) -> usize
        requires { at < length self.now.sending }
        ensures value { result ≡ min (length (rejecting self.now at).stated) (2 ^ 64 - 1) }
        ensures exact { result < 2 ^ 63 → length (rejecting self.now at).stated ≡ result }
    {
        let sender = &self.sending[at];
        let waiting = sender.waiting() as usize;
        if sender.finished() {
            waiting
        } else {
            waiting.saturating_add(1)
        }
    }
}

/// Why a receiver would refuse a chunk; or how many messages it hands over at most, if it takes it.
fn most_or_cause(receiver: &FlowReceiver, chunk: &UserData<'_>) -> Result<usize, Cause>
    ensures none { OnOk result (cause_of (refusal receiver.now (chunk_of chunk.now)) ≡ None) }
    ensures most { IfOk result (λ most. most ≡ length receiver.now.runs + 1) }
    ensures refused { IfErr result
        (λ cause. cause_of (refusal receiver.now (chunk_of chunk.now)) ≡ Some cause) }
    ensures small { IfOk result (λ most. most ≤ 2 ^ 63 + 1) }
{
    match cause_of(receiver.refusal(chunk)) {
        Some(cause) => Err(cause),
        // A fragment begins one message more.
        None => Ok(receiver.runs() + 1),
    }
}

/// A receiver's refusal that isn't want of memory, as the call tells it.
fn cause_of(refusal: Option<FlowRefusal>) -> Option<Cause>
    ensures { result ≡ cause_of refusal }
{
    match refusal {
        Some(FlowRefusal::AfterFinal(number)) => Some(Cause::AfterFinal(number)),
        Some(FlowRefusal::BeyondBuffer(held)) => Some(Cause::BeyondBuffer(held)),
        Some(FlowRefusal::Memory) => None,
        None => None,
    }
}
