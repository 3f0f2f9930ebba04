//! Calls on the flows of sessions (RFC 7016 section 3.6; the limits are own).

ghost use Rattle.std.specs.Prelude.{◌≡◌, ◌∷◌, [], Err, IfErr, IfNone, IfOk, IfSome, None};
ghost use Rattle.std.specs.Prelude.{OnErr, OnOk};
ghost use Rattle.std.specs.Option.{option_copied};
ghost use Rattle.endpoint_model.specs.FlowCall.{Abandon, Finish, OpenFlow, Queue};
ghost use Rattle.endpoint_model.specs.InSessions.{held_row};
ghost use Rattle.endpoint_model.specs.Log.{Extends, flow_event, not_called};
ghost use Rattle.endpoint_model.specs.OnFlows.{call_refusal, flow_called, flows_in};
ghost use Rattle.endpoint_model.specs.State.{Done, nothing};

use crate::endpoint::Endpoint;
use end_state::{EndState, Outbox};
use endpoint_model::{CallRefusal, Entry};
use flow_send::MessageOptions;
use rtmfp_base::Message;
use session_flows::Flows;

impl Endpoint {
    /// Opens a flow in the held session with this session ID: with a priority of at most 7, the
    /// highest, metadata of at most 64 bytes, and the flow of the other end that it answers, where
    /// there is one. The answer is its ID: 0, 1, 2 and on. A flow whose metadata begins with byte
    /// 0x61 hands its messages over as they arrive, every other in their order.
    ///
    /// Where it is refused all is as before; `CallRefusal` has the reasons in their order.
    pub fn open_flow(
        &mut self,
        near: u32,
        priority: u8,
        metadata: &[u8],
        answers: Option<u64>,
        out: &mut Outbox,
    ) -> Result<u64, CallRefusal>
        ensures ok { OnOk result (Done
            (flow_called self.old near (OpenFlow priority metadata.now answers)) self.new out.old
            out.new) }
        ensures number { IfOk result (λ flow.
            (flow_called self.old near (OpenFlow priority metadata.now answers)).entries
            ≡ Entry.FlowOpened near flow ∷ []) }
        ensures refused { IfSome
            (call_refusal self.old near (OpenFlow priority metadata.now answers))
            (λ refusal. result ≡ Err refusal) }
        ensures memory { IfNone
            (call_refusal self.old near (OpenFlow priority metadata.now answers))
            (IfErr result (λ refusal. refusal ≡ CallRefusal.Memory)) }
        ensures err { OnErr result (Done (nothing self.old) self.new out.old out.new) }

        // The end stands for its log with this call.
        ensures stands { Extends self.old self.new
            (flow_event near (OpenFlow priority metadata.now answers) result out.old.entries
            out.new.entries) }
    {
        open_flow(&mut self.end, near, priority, metadata, answers, out)
    }

    /// Queues a message of at most 1,048,576 bytes in a flow of the held session with this session
    /// ID; the answer is the number of its first fragment.
    ///
    /// Where it is refused all is as before; `CallRefusal` has the reasons in their order.
    pub fn queue(
        &mut self,
        near: u32,
        flow: u64,
        message: &[u8],
        options: MessageOptions,
        out: &mut Outbox,
    ) -> Result<u64, CallRefusal>
        ensures ok { OnOk result (Done
            (flow_called self.old near (Queue flow message.now options)) self.new out.old out.new) }
        ensures number { IfOk result (λ seq.
            (flow_called self.old near (Queue flow message.now options)).entries
            ≡ Entry.Queued near flow seq message.now ∷ []) }
        ensures refused { IfSome (call_refusal self.old near (Queue flow message.now options))
            (λ refusal. result ≡ Err refusal) }
        ensures memory { IfNone (call_refusal self.old near (Queue flow message.now options))
            (IfErr result (λ refusal. refusal ≡ CallRefusal.Memory)) }
        ensures err { OnErr result (Done (nothing self.old) self.new out.old out.new) }

        // The end stands for its log with this call.
        ensures stands { Extends self.old self.new
            (flow_event near (Queue flow message.now options) result out.old.entries
            out.new.entries) }
    {
        queue(&mut self.end, near, flow, message, options, out)
    }

    /// Abandons a message of a flow of the held session with this session ID that waits: it isn't
    /// wholly acknowledged, and it begins at this number.
    ///
    /// Where it is refused all is as before; `CallRefusal` has the reasons in their order.
    pub fn abandon(
        &mut self,
        near: u32,
        flow: u64,
        seq: u64,
        out: &mut Outbox,
    ) -> Result<(), CallRefusal>
        ensures ok { OnOk result (Done (flow_called self.old near (Abandon flow seq)) self.new
            out.old out.new) }
        ensures refused { IfSome (call_refusal self.old near (Abandon flow seq))
            (λ refusal. result ≡ Err refusal) }
        ensures memory { IfNone (call_refusal self.old near (Abandon flow seq))
            (IfErr result (λ refusal. refusal ≡ CallRefusal.Memory)) }
        ensures err { OnErr result (Done (nothing self.old) self.new out.old out.new) }

        // The end stands for its log with this call.
        ensures stands { Extends self.old self.new
            (flow_event near (Abandon flow seq) result out.old.entries out.new.entries) }
    {
        abandon(&mut self.end, near, flow, seq, out)
    }

    /// Finishes a flow of the held session with this session ID: nothing is queued in it any more,
    /// and its end is told to the other end by one further number.
    ///
    /// Where it is refused all is as before; `CallRefusal` has the reasons in their order.
    pub fn finish(&mut self, near: u32, flow: u64, out: &mut Outbox) -> Result<(), CallRefusal>
        ensures ok { OnOk result (Done (flow_called self.old near (Finish flow)) self.new out.old
            out.new) }
        ensures refused { IfSome (call_refusal self.old near (Finish flow))
            (λ refusal. result ≡ Err refusal) }
        ensures memory { IfNone (call_refusal self.old near (Finish flow))
            (IfErr result (λ refusal. refusal ≡ CallRefusal.Memory)) }
        ensures err { OnErr result (Done (nothing self.old) self.new out.old out.new) }

        // The end stands for its log with this call.
        ensures stands { Extends self.old self.new
            (flow_event near (Finish flow) result out.old.entries out.new.entries) }
    {
        finish(&mut self.end, near, flow, out)
    }
}

/// The flows of the held session with this session ID.
fn flows_of(end: &EndState, near: u32) -> Option<&Flows>
    ensures { option_copied result ≡ flows_in (held_row end.now near) }
{
    match end.sessions.row(near) {
        Some(row) => {
            if row.session.is_held() {
                Some(&row.flows)
            } else {
                None
            }
        }
        None => None,
    }
}

/// Why a call isn't done for which no memory is found.
fn or_memory(refusal: Option<CallRefusal>) -> CallRefusal
    ensures { result ≡ not_called refusal }
{
    match refusal {
        Some(refusal) => refusal,
        None => CallRefusal::Memory,
    }
}

/// Opens a flow, or tells why not. What refuses it in its session is looked up where no room is found
/// for the entry; else the session's flows tell it.
fn open_flow(
    end: &mut EndState,
    near: u32,
    priority: u8,
    metadata: &[u8],
    answers: Option<u64>,
    out: &mut Outbox,
) -> Result<u64, CallRefusal>
    ensures ok { OnOk result (Done
        (flow_called end.old near (OpenFlow priority metadata.now answers)) end.new out.old
        out.new) }
    ensures number { IfOk result (λ flow.
        (flow_called end.old near (OpenFlow priority metadata.now answers)).entries
        ≡ Entry.FlowOpened near flow ∷ []) }
    ensures refused { IfSome (call_refusal end.old near (OpenFlow priority metadata.now answers))
        (λ refusal. result ≡ Err refusal) }
    ensures memory { IfNone (call_refusal end.old near (OpenFlow priority metadata.now answers))
        (IfErr result (λ refusal. refusal ≡ CallRefusal.Memory)) }
    ensures err { OnErr result (Done (nothing end.old) end.new out.old out.new) }
{
    let Some(flows) = flows_of(end, near) else {
        return Err(CallRefusal::NoSession);
    };
    if out.make_room(1).is_err() {
        return Err(or_memory(flows.open_refusal(metadata, priority)));
    }
    match end.sessions.open_flow(near, priority, metadata, answers) {
        Ok(flow) => {
            out.add(Entry::FlowOpened { near, flow });
            Ok(flow)
        }
        Err(refusal) => Err(refusal),
    }
}

/// Queues a message, or tells why not.
fn queue(
    end: &mut EndState,
    near: u32,
    flow: u64,
    message: &[u8],
    options: MessageOptions,
    out: &mut Outbox,
) -> Result<u64, CallRefusal>
    ensures ok { OnOk result (Done (flow_called end.old near (Queue flow message.now options))
        end.new out.old out.new) }
    ensures number { IfOk result (λ seq.
        (flow_called end.old near (Queue flow message.now options)).entries
        ≡ Entry.Queued near flow seq message.now ∷ []) }
    ensures refused { IfSome (call_refusal end.old near (Queue flow message.now options))
        (λ refusal. result ≡ Err refusal) }
    ensures memory { IfNone (call_refusal end.old near (Queue flow message.now options))
        (IfErr result (λ refusal. refusal ≡ CallRefusal.Memory)) }
    ensures err { OnErr result (Done (nothing end.old) end.new out.old out.new) }
{
    let Some(flows) = flows_of(end, near) else {
        return Err(CallRefusal::NoSession);
    };
    if out.make_room(1).is_err() {
        return Err(or_memory(flows.queue_refusal(flow, message.len() as u64)));
    }
    let Ok(copy) = Message::copy_of(end.alloc, message) else {
        return Err(or_memory(flows.queue_refusal(flow, message.len() as u64)));
    };
    match end.sessions.queue(near, flow, message, options) {
        Ok(seq) => {
            out.add(Entry::Queued {
                near,
                flow,
                seq,
                message: copy,
            });
            Ok(seq)
        }
        Err(refusal) => Err(refusal),
    }
}

/// Abandons a message, or tells why not.
fn abandon(
    end: &mut EndState,
    near: u32,
    flow: u64,
    seq: u64,
    out: &mut Outbox,
) -> Result<(), CallRefusal>
    ensures ok { OnOk result (Done (flow_called end.old near (Abandon flow seq)) end.new out.old
        out.new) }
    ensures refused { IfSome (call_refusal end.old near (Abandon flow seq))
        (λ refusal. result ≡ Err refusal) }
    ensures memory { IfNone (call_refusal end.old near (Abandon flow seq))
        (IfErr result (λ refusal. refusal ≡ CallRefusal.Memory)) }
    ensures err { OnErr result (Done (nothing end.old) end.new out.old out.new) }
{
    let Some(flows) = flows_of(end, near) else {
        return Err(CallRefusal::NoSession);
    };
    if out.make_room(1).is_err() {
        return Err(or_memory(flows.abandon_refusal(flow, seq)));
    }
    match end.sessions.abandon(near, flow, seq) {
        Ok(()) => {
            out.add(Entry::Abandoned { near, flow, seq });
            Ok(())
        }
        Err(refusal) => Err(refusal),
    }
}

/// Finishes a flow, or tells why not.
fn finish(end: &mut EndState, near: u32, flow: u64, out: &mut Outbox) -> Result<(), CallRefusal>
    ensures ok { OnOk result (Done (flow_called end.old near (Finish flow)) end.new out.old
        out.new) }
    ensures refused { IfSome (call_refusal end.old near (Finish flow))
        (λ refusal. result ≡ Err refusal) }
    ensures memory { IfNone (call_refusal end.old near (Finish flow))
        (IfErr result (λ refusal. refusal ≡ CallRefusal.Memory)) }
    ensures err { OnErr result (Done (nothing end.old) end.new out.old out.new) }
{
    let Some(flows) = flows_of(end, near) else {
        return Err(CallRefusal::NoSession);
    };
    if out.make_room(1).is_err() {
        return Err(or_memory(flows.finish_refusal(flow)));
    }
    match end.sessions.finish(near, flow) {
        Ok(seq) => {
            out.add(Entry::Finished { near, flow, seq });
            Ok(())
        }
        Err(refusal) => Err(refusal),
    }
}
