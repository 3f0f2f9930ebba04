//! What a session does with a chunk of its flows.

ghost use Rattle.std.specs.Prelude.{◌≡◌, ◌+◌, ◌<◌, ◌≤◌, false, length, Some, None, Err};
ghost use Rattle.std.specs.Prelude.{OnOk, OnErr, IfOk, IsOk, MatchOption, map, ◌++◌, vec_len};
ghost use Rattle.std.specs.Prelude.{vec_capacity, IfSome};
ghost use Rattle.rtmfp_data_chunks.specs.Chunk.{user_parts};
ghost use Rattle.flow_send.specs.Acks.{told};
ghost use Rattle.flow_send.specs.Flow.{with_sender};
ghost use Rattle.session_core.specs.Closing.{with_acknowledged};
ghost use Rattle.session_flows.specs.Causes.{ack_cause, probe_cause, receiver_cause};
ghost use Rattle.session_flows.specs.Keeping.{Abandoned};
ghost use Rattle.session_flows.specs.Chunks.{data_taken, heard, session_heard, probed, rejecting};
ghost use Rattle.session_flows.specs.Chunks.{waiting_at, finished_at, without_messages, numbers_of};
ghost use Rattle.session_flows.specs.Chunks.{lost_if};
ghost use Rattle.session_flows.specs.Judged.{IsJudged};
ghost use Rattle.session_flows.specs.Places.{index_from, place_of};

use crate::flows::Flows;
use crate::judged::JudgedData;
use crate::taking::TakingFlow;
use crate::told::told_metadata;
use flow_recv::FlowReceiver;
use flow_send::{AckFault, Acked, FlowSender};
use rtmfp_base::Cause;
use rtmfp_data_chunks::{AckedSpans, UserData};
use session_core::Session;
use std::alloc::AllocError;

impl Flows {
    /// The index of a receiving flow.
    pub(crate) fn taking_index(&self, flow: u64) -> Option<usize>
        ensures place { result ≡ index_from 0 flow self.now.taking }
        ensures within { IfSome result (λ at. at < length self.now.taking) }
    {
        for (at, row) in self.taking.iter().enumerate() {
            if row.id == flow {
                return Some(at);
            }
        }
        None
    }

    /// Takes a user data chunk that was judged and that nothing refuses. It makes its flow where it
    /// is the first of it, and owes an ack for it. What is ready then is handed over by
    /// `hand_next`.
    pub fn apply_data(&mut self, judged: JudgedData, chunk: &UserData<'_>) -> Result<(), AllocError>
        requires low { chunk.now.forward ≤ chunk.now.seq }
        requires below { chunk.now.abandon ≡ false → chunk.now.forward < chunk.now.seq }
        requires judged { IsJudged judged self.old (user_parts chunk.now) }
        ensures taken { OnOk result (self.new ≡ data_taken self.old (user_parts chunk.now)) }
        ensures err { OnErr result (self.new ≡ self.old) }
    {
        match judged.at {
            Some(at) => self.take_at(at, chunk),
            None => self.make(chunk),
        }
    }

    /// Takes a chunk of the flow at an index.
    fn take_at(&mut self, at: usize, chunk: &UserData<'_>) -> Result<(), AllocError>
        requires low { chunk.now.forward ≤ chunk.now.seq }
        requires below { chunk.now.abandon ≡ false → chunk.now.forward < chunk.now.seq }
        requires at { index_from 0 chunk.now.flow self.old.taking ≡ Some at }
        requires within { at < length self.old.taking }
        requires takes { receiver_cause self.old (user_parts chunk.now) ≡ None }
        ensures taken { OnOk result (self.new ≡ data_taken self.old (user_parts chunk.now)) }
        ensures err { OnErr result (self.new ≡ self.old) }
    {
        let row = &mut self.taking[at];
        row.receiver.apply(chunk)?;
        row.owed = true;
        Ok(())
    }

    /// Takes the first chunk of a flow that isn't there.
    fn make(&mut self, chunk: &UserData<'_>) -> Result<(), AllocError>
        requires low { chunk.now.forward ≤ chunk.now.seq }
        requires below { chunk.now.abandon ≡ false → chunk.now.forward < chunk.now.seq }
        requires new { index_from 0 chunk.now.flow self.old.taking ≡ None }
        requires room { length self.old.taking < 256 }
        requires takes { receiver_cause self.old (user_parts chunk.now) ≡ None }
        ensures taken { OnOk result (self.new ≡ data_taken self.old (user_parts chunk.now)) }
        ensures err { OnErr result (self.new ≡ self.old) }
    {
        let first = told_metadata(&chunk.options).unwrap_or(0);
        let mut receiver = FlowReceiver::new(self.alloc, first);
        receiver.apply(chunk)?;
        let at = self.place_for(chunk.flow);
        let row = TakingFlow {
            id: chunk.flow,
            receiver,
            owed: true,
        };
        if self.taking.insert(at, row).is_err() {
            return Err(AllocError);
        }
        Ok(())
    }

    /// The index at which a receiving flow is put in.
    fn place_for(&self, flow: u64) -> usize
        ensures place { result ≡ place_of flow self.now.taking }
        ensures within { result ≤ length self.now.taking }
    {
        for (at, row) in self.taking.iter().enumerate() {
            if flow < row.id {
                return at;
            }
        }
        self.taking.len()
    }

    /// Takes an ack: the blocks of 1,024 bytes that the other end has free for a flow, the number
    /// at or below which all is acknowledged, and the spans above it. What it newly acknowledges
    /// opens the session's window, and what it makes lost then closes it. It takes no memory.
    pub fn take_ack(
        &mut self,
        session: &mut Session,
        flow: u64,
        blocks: u64,
        upto: u64,
        spans: AckedSpans<'_>,
    ) -> Result<(), Cause>
        ensures cause { MatchOption (ack_cause session.old self.old flow
            (told blocks upto spans.entry)) (IsOk result) (λ c. result ≡ Err c) }
        ensures flows { OnOk result (self.new
            ≡ heard self.old flow (told blocks upto spans.entry)) }
        ensures session { OnOk result (session.new
            ≡ session_heard session.old self.old flow (told blocks upto spans.entry)) }
        ensures err { OnErr result ((self.new ≡ self.old) × (session.new ≡ session.old)) }
    {
        if !session.is_held() {
            return Err(Cause::WrongState);
        }
        let Some(at) = self.sending_index(flow) else {
            return Err(Cause::UnknownFlow);
        };
        let sender = &mut self.sending[at];
        let before = sender.flight();
        let acked = match sender.take_ack(blocks, upto, spans) {
            Ok(acked) => acked,
            Err(AckFault::AckBeyond(number)) => return Err(Cause::AckBeyond(number)),
        };
        self.kept.settle(before, sender);
        tell(session, acked);
        Ok(())
    }

    /// Owes an ack for a buffer probe. It takes no memory.
    pub fn take_probe(&mut self, session: &Session, flow: u64) -> Result<(), Cause>
        ensures cause { MatchOption (probe_cause session.now self.old flow)
            (IsOk result) (λ c. result ≡ Err c) }
        ensures flows { OnOk result (self.new ≡ probed self.old flow) }
        ensures err { OnErr result (self.new ≡ self.old) }
    {
        if !session.is_held() {
            return Err(Cause::WrongState);
        }
        let Some(at) = self.taking_index(flow) else {
            return Err(Cause::UnknownFlow);
        };
        let row = &mut self.taking[at];
        row.owed = true;
        Ok(())
    }

    /// Takes an exception that nothing refuses, by which the other end rejects a flow: all its
    /// messages that wait are abandoned, and it is finished. The numbers of the messages are put at
    /// the end of a list, for which memory is found first. The answer is the last number of the
    /// flow, where it wasn't finished before.
    pub fn apply_exception(
        &mut self,
        flow: u64,
        abandoned: &mut Vec<u64>,
    ) -> Result<Option<u64>, AllocError>
        requires { flow < length self.old.sending }
        ensures flows { OnOk result (self.new ≡ (rejecting self.old flow).flows) }
        ensures numbers { OnOk result (abandoned.new.items
            ≡ abandoned.old.items ++ waiting_at self.old flow) }
        ensures stated { IfOk result (λ last. (rejecting self.old flow).stated
            ≡ map (Abandoned flow) (waiting_at self.old flow) ++ finished_at flow last) }
        ensures err { OnErr result ((self.new ≡ self.old)
            × (abandoned.new.items ≡ abandoned.old.items)) }
    {
        let sender = &mut self.sending[flow as usize];
        if abandoned.reserve(sender.waiting() as usize).is_err() {
            return Err(AllocError);
        }
        let before = sender.flight();
        abandon_all(sender, abandoned);
        let last = sender.finish();
        self.kept.settle(before, sender);
        Ok(last)
    }
}

/// Tells a session what an ack did: the bytes that it acknowledged first.
fn tell(session: &mut Session, acked: Acked)
    ensures { session.new ≡ lost_if acked.lost (with_acknowledged acked.bytes session.old) }
{
    session.acknowledged(acked.bytes);
    lost_if(session, acked.lost);
}

/// Closes a session's window, where an ack made a number lost.
fn lost_if(session: &mut Session, lost: bool)
    ensures { session.new ≡ lost_if lost session.old }
{
    if lost {
        session.lost(false);
    }
}

/// Abandons all messages that wait, whose numbers are put at the end of a list that has room for
/// them.
fn abandon_all(sender: &mut FlowSender, abandoned: &mut Vec<u64>)
    requires { vec_len abandoned.old + length sender.old.sender.waiting
        ≤ vec_capacity abandoned.old }
    ensures sender { sender.new ≡ with_sender sender.old (without_messages sender.old.sender) }
    ensures numbers { abandoned.new.items
        ≡ abandoned.old.items ++ numbers_of sender.old.sender.waiting }
{
    while let Some(number) = sender.abandon_first() {
        let _ = abandoned.push(number);
    }
}
