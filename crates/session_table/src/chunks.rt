//! Chunks of flows and pieces of packets that are judged and taken in one of the sessions. Where no
//! session has the session ID, none is taken.

ghost use Rattle.std.specs.Prelude.{◌≡◌, ◌<◌, ◌≤◌, ◌+◌, ◌-◌, ◌^◌, ◌++◌, IfErr, IfOk, IfSome, IsOk};
ghost use Rattle.std.specs.Prelude.{MatchOption, Err, None, Ok, OnErr, OnOk, Some, false, length};
ghost use Rattle.std.specs.Prelude.{map, min};
ghost use Rattle.std.specs.FinMap.{get};
ghost use Rattle.rtmfp_data_chunks.specs.Chunk.{user_parts};
ghost use Rattle.flow_send.specs.Acks.{told};
ghost use Rattle.session_flows.specs.Causes.{ack_cause, data_cause, exception_cause, probe_cause};
ghost use Rattle.session_flows.specs.Chunks.{data_taken, finished_at, probed, rejecting};
ghost use Rattle.session_flows.specs.Handing.{handed_stated, hands_once};
ghost use Rattle.session_flows.specs.Judged.{IsJudged};
ghost use Rattle.session_flows.specs.Keeping.{Abandoned};
ghost use Rattle.session_table.specs.Chunks.{cause_in, handed_in, heard_in, of_flows, rejected_in};
ghost use Rattle.session_table.specs.Chunks.{waiting_in};
ghost use Rattle.session_table.specs.Table.{in_row};
ghost use Rattle.rtmfp_fragments.specs.Pieces.{piece_parts};
ghost use Rattle.endpoint_model.specs.Gathering.{gathered_more, given, holds_it, piece_cause};
ghost use Rattle.endpoint_model.specs.Gathering.{whole_by};

use crate::slot::slot_near;
use crate::table::SessionTable;
use rtmfp_base::{Cause, Message};
use rtmfp_data_chunks::{AckedSpans, UserData};
use rtmfp_fragments::{Gathered, Piece};
use session_flows::JudgedData;
use std::alloc::AllocError;

impl SessionTable {
    /// Why a user data chunk is discarded in the session; or of which flow it is, and how many
    /// messages it hands over at most. It takes no memory.
    pub fn judge_data(&self, near: u32, chunk: &UserData<'_>) -> Result<JudgedData, Cause>
        ensures none { OnOk result (cause_in (λ s f. data_cause s f (user_parts chunk.now))
            (get self.now.rows near) ≡ None) }
        ensures judged { IfOk result (λ judged. IfSome (get self.now.rows near)
            (λ row. IsJudged judged row.flows (user_parts chunk.now))) }
        ensures refused { IfErr result (λ x. cause_in
            (λ s f. data_cause s f (user_parts chunk.now)) (get self.now.rows near) ≡ Some x) }
        ensures small { IfOk result (λ judged. judged.most ≤ 2 ^ 63 + 1) }
    {
        match self.row(near) {
            Some(row) => row.flows.judge_data(&row.session, chunk),
            None => Err(Cause::WrongState),
        }
    }

    /// Takes a user data chunk in the session that was judged and that nothing refuses, and owes an
    /// ack for it. What is ready then is handed over by `hand_next`.
    pub fn apply_data(
        &mut self,
        near: u32,
        judged: JudgedData,
        chunk: &UserData<'_>,
    ) -> Result<(), AllocError>
        requires low { chunk.now.forward ≤ chunk.now.seq }
        requires below { chunk.now.abandon ≡ false → chunk.now.forward < chunk.now.seq }
        requires judged { IfSome (get self.old.rows near)
            (λ row. IsJudged judged row.flows (user_parts chunk.now)) }
        ensures rows { OnOk result (self.new.rows
            ≡ in_row (of_flows (λ f. data_taken f (user_parts chunk.now))) self.old.rows near) }
        ensures err { OnErr result (self.new.rows ≡ self.old.rows) }
    {
        let Some(slot) = slot_near(&self.kept, near, self.likely) else {
            return Ok(());
        };
        let taken = self.kept.rows[slot].flows.apply_data(judged, chunk);
        self.kept.settle(slot);
        taken
    }

    /// Hands over the next message of a flow of the session, with the number of its first fragment.
    /// None where none is ready. It takes no memory.
    pub fn hand_next(&mut self, near: u32, flow: u64) -> Option<(u64, Message)>
        ensures rows { self.new.rows
            ≡ in_row (of_flows (λ f. (hands_once f flow).flows)) self.old.rows near }
        ensures stated { handed_in flow (get self.old.rows near) ≡ handed_stated flow result }
    {
        match slot_near(&self.kept, near, self.likely) {
            Some(slot) => {
                let handed = self.kept.rows[slot].flows.hand_next(flow);
                self.kept.settle(slot);
                handed
            }
            None => None,
        }
    }

    /// Takes an ack of a flow of the session: the free blocks, the number at or below which all is
    /// acknowledged, and the spans above it. It takes no memory.
    pub fn take_ack(
        &mut self,
        near: u32,
        flow: u64,
        blocks: u64,
        upto: u64,
        spans: AckedSpans<'_>,
    ) -> Result<(), Cause>
        ensures rows { OnOk result (self.new.rows
            ≡ in_row (heard_in flow (told blocks upto spans.entry)) self.old.rows near) }
        ensures cause { MatchOption (cause_in (λ s f. ack_cause s f flow
            (told blocks upto spans.entry)) (get self.old.rows near))
            (IsOk result) (λ x. result ≡ Err x) }
        ensures err { OnErr result (self.new.rows ≡ self.old.rows) }
    {
        let Some(slot) = slot_near(&self.kept, near, self.likely) else {
            return Err(Cause::WrongState);
        };
        let row = &mut self.kept.rows[slot];
        let taken = row
            .flows
            .take_ack(&mut row.session, flow, blocks, upto, spans);
        self.kept.settle(slot);
        taken
    }

    /// Owes an ack for a buffer probe of a flow of the session. It takes no memory.
    pub fn take_probe(&mut self, near: u32, flow: u64) -> Result<(), Cause>
        ensures rows { OnOk result (self.new.rows
            ≡ in_row (of_flows (λ f. probed f flow)) self.old.rows near) }
        ensures cause { MatchOption (cause_in (λ s f. probe_cause s f flow)
            (get self.old.rows near)) (IsOk result) (λ x. result ≡ Err x) }
        ensures err { OnErr result (self.new.rows ≡ self.old.rows) }
    {
        let Some(slot) = slot_near(&self.kept, near, self.likely) else {
            return Err(Cause::WrongState);
        };
        let row = &mut self.kept.rows[slot];
        let taken = row.flows.take_probe(&row.session, flow);
        self.kept.settle(slot);
        taken
    }

    /// Why an exception for a flow is discarded in the session; or how much it states, or
    /// 2 ^ 64 - 1 where it is more. It takes no memory.
    pub fn judge_exception(&self, near: u32, flow: u64) -> Result<usize, Cause>
        ensures none { OnOk result (cause_in (λ s f. exception_cause s f flow)
            (get self.now.rows near) ≡ None) }
        ensures there { OnOk result (IfSome (get self.now.rows near)
            (λ row. flow < length row.flows.sending)) }
        ensures count { IfOk result (λ count.
            count ≡ min (length (rejected_in flow (get self.now.rows near))) (2 ^ 64 - 1)) }
        ensures refused { IfErr result (λ x. cause_in (λ s f. exception_cause s f flow)
            (get self.now.rows near) ≡ Some x) }
        ensures exact { IfOk result (λ count. count < 2 ^ 63 →
            length (rejected_in flow (get self.now.rows near)) ≡ count) }
    {
        match self.row(near) {
            Some(row) => row.flows.judge_exception(&row.session, flow),
            None => Err(Cause::WrongState),
        }
    }

    /// Takes an exception that nothing refuses, by which the other end rejects a flow of the
    /// session: the numbers of the messages that it abandons are put at the end of a list, for
    /// which memory is found first. The answer is the last number of the flow, where it wasn't
    /// finished before.
    pub fn apply_exception(
        &mut self,
        near: u32,
        flow: u64,
        abandoned: &mut Vec<u64>,
    ) -> Result<Option<u64>, AllocError>
        requires { IfSome (get self.old.rows near) (λ row. flow < length row.flows.sending) }
        ensures rows { OnOk result (self.new.rows
            ≡ in_row (of_flows (λ f. (rejecting f flow).flows)) self.old.rows near) }
        ensures numbers { OnOk result (abandoned.new.items
            ≡ abandoned.old.items ++ waiting_in flow (get self.old.rows near)) }
        ensures stated { IfOk result (λ last. rejected_in flow (get self.old.rows near)
            ≡ map (Abandoned flow) (waiting_in flow (get self.old.rows near))
            ++ finished_at flow last) }
        ensures err { OnErr result ((self.new.rows ≡ self.old.rows)
            × (abandoned.new.items ≡ abandoned.old.items)) }
    {
        let Some(slot) = slot_near(&self.kept, near, self.likely) else {
            return Ok(None);
        };
        let last = self.kept.rows[slot].flows.apply_exception(flow, abandoned);
        self.kept.settle(slot);
        last
    }

    /// Takes a piece of the packet that has this id, which nothing refuses in the session at this
    /// moment.
    pub fn gather(
        &mut self,
        near: u32,
        id: u64,
        piece: &Piece<'_>,
        moment: u64,
    ) -> Result<Gathered, AllocError>
        requires { piece_cause moment (get self.old.rows near) id (piece_parts piece.now) ≡ None }
        ensures rows { OnOk result (self.new.rows
            ≡ in_row (gathered_more moment id (piece_parts piece.now)) self.old.rows near) }
        ensures given { IfOk result (λ gathered. given (Ok gathered)
            ≡ whole_by moment (get self.old.rows near) id (piece_parts piece.now)) }
        ensures err { OnErr result (self.new.rows ≡ self.old.rows) }
        ensures is_new { OnErr result (holds_it moment (get self.old.rows near) id
            (piece_parts piece.now) ≡ false) }
    {
        let Some(slot) = slot_near(&self.kept, near, self.likely) else {
            return Ok(Gathered::Again);
        };
        let packets = &mut self.kept.rows[slot].gathering;
        let gathered = packets.gather(id, piece.number, piece.more, piece.bytes, moment);
        self.kept.settle(slot);
        gathered
    }
}
