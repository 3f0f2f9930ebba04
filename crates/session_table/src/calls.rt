//! Calls on the flows of one of the sessions. Where no session has the session ID, there is no
//! flow.

ghost use Rattle.std.specs.Prelude.{◌≡◌, ◌∷◌, [], Err, IfErr, IfOk, IsOk, MatchOption, Ok, OnErr, OnOk};
ghost use Rattle.std.specs.FinMap.{get};
ghost use Rattle.session_flows.specs.Keeping.{Abandoned, Finished, Opened, Queued};
ghost use Rattle.endpoint_model.specs.FlowCall.{Abandon, Finish, OpenFlow, Queue};
ghost use Rattle.session_table.specs.Calls.{called, refused_by, stated_by};
ghost use Rattle.session_table.specs.Table.{in_row};

use crate::slot::slot_near;
use crate::table::SessionTable;
use flow_send::MessageOptions;
use session_flows::CallRefusal;

impl SessionTable {
    /// Opens a flow in the session, and gives its ID.
    pub fn open_flow(
        &mut self,
        near: u32,
        priority: u8,
        metadata: &[u8],
        answers: Option<u64>,
    ) -> Result<u64, CallRefusal>
        ensures rows { OnOk result (self.new.rows
            ≡ in_row (called (OpenFlow priority metadata.now answers)) self.old.rows near) }
        ensures stated { IfOk result (λ id. stated_by (OpenFlow priority metadata.now answers)
            (get self.old.rows near) ≡ Opened id ∷ []) }
        ensures refused { MatchOption (refused_by (OpenFlow priority metadata.now answers)
            (get self.old.rows near)) (IfErr result (λ e. e ≡ CallRefusal.Memory))
            (λ e. result ≡ Err e) }
        ensures err { OnErr result (self.new.rows ≡ self.old.rows) }
    {
        let Some(slot) = slot_near(&self.kept, near, self.likely) else {
            return Err(CallRefusal::NoFlow);
        };
        let row = &mut self.kept.rows[slot];
        let opened = row.flows.open_flow(priority, metadata, answers);
        self.kept.settle(slot);
        opened
    }

    /// Queues a message in a flow of the session, and gives the number of its first fragment.
    pub fn queue(
        &mut self,
        near: u32,
        flow: u64,
        message: &[u8],
        options: MessageOptions,
    ) -> Result<u64, CallRefusal>
        ensures rows { OnOk result (self.new.rows
            ≡ in_row (called (Queue flow message.now options)) self.old.rows near) }
        ensures stated { IfOk result (λ seq. stated_by (Queue flow message.now options)
            (get self.old.rows near) ≡ Queued flow seq message.now ∷ []) }
        ensures refused { MatchOption (refused_by (Queue flow message.now options)
            (get self.old.rows near)) (IfErr result (λ e. e ≡ CallRefusal.Memory))
            (λ e. result ≡ Err e) }
        ensures err { OnErr result (self.new.rows ≡ self.old.rows) }
    {
        let Some(slot) = slot_near(&self.kept, near, self.likely) else {
            return Err(CallRefusal::NoFlow);
        };
        let row = &mut self.kept.rows[slot];
        let queued = row.flows.queue(flow, message, options);
        self.kept.settle(slot);
        queued
    }

    /// Abandons the message of a flow of the session that begins at a number. It takes no memory.
    pub fn abandon(&mut self, near: u32, flow: u64, seq: u64) -> Result<(), CallRefusal>
        ensures rows { OnOk result (self.new.rows
            ≡ in_row (called (Abandon flow seq)) self.old.rows near) }
        ensures stated { OnOk result (stated_by (Abandon flow seq) (get self.old.rows near)
            ≡ Abandoned flow seq ∷ []) }
        ensures refused { MatchOption (refused_by (Abandon flow seq) (get self.old.rows near))
            (result ≡ Ok tt) (λ e. result ≡ Err e) }
        ensures err { OnErr result (self.new.rows ≡ self.old.rows) }
    {
        let Some(slot) = slot_near(&self.kept, near, self.likely) else {
            return Err(CallRefusal::NoFlow);
        };
        let row = &mut self.kept.rows[slot];
        let abandoned = row.flows.abandon(flow, seq);
        self.kept.settle(slot);
        abandoned
    }

    /// Finishes a flow of the session, and gives its last number. It takes no memory.
    pub fn finish(&mut self, near: u32, flow: u64) -> Result<u64, CallRefusal>
        ensures rows { OnOk result (self.new.rows
            ≡ in_row (called (Finish flow)) self.old.rows near) }
        ensures stated { IfOk result (λ seq. stated_by (Finish flow) (get self.old.rows near)
            ≡ Finished flow seq ∷ []) }
        ensures refused { MatchOption (refused_by (Finish flow) (get self.old.rows near))
            (IsOk result) (λ e. result ≡ Err e) }
        ensures err { OnErr result (self.new.rows ≡ self.old.rows) }
    {
        let Some(slot) = slot_near(&self.kept, near, self.likely) else {
            return Err(CallRefusal::NoFlow);
        };
        let row = &mut self.kept.rows[slot];
        let finished = row.flows.finish(flow);
        self.kept.settle(slot);
        finished
    }
}
