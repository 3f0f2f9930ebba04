//! What changes in one row. None of it takes memory, and where no session has the session ID
//! nothing changes.

ghost use Rattle.std.specs.Prelude.{◌≡◌, ◌≤◌, length};
ghost use Rattle.session_core.specs.Closing.{after_due, asked_to_close, closed_near, first_due};
ghost use Rattle.session_core.specs.Closing.{kept_alive};
ghost use Rattle.session_core.specs.Hearing.{counted};
ghost use Rattle.session_core.specs.Session.{confirmed, with_stamps};
ghost use Rattle.session_table.specs.Table.{in_row, in_session, moved, tested};

use crate::slot::slot_near;
use crate::table::SessionTable;
use rtmfp_forms::Address;
use rtmfp_packet::PacketHead;

impl SessionTable {
    /// The number of a sealed part that was opened in the session counts as taken.
    pub fn take_number(&mut self, near: u32, part: &[u8])
        requires { 32 ≤ length part.now }
        ensures { self.new.rows ≡ in_session (λ x. counted x part.now) self.old.rows near }
    {
        if let Some(slot) = slot_near(&self.kept, near, self.likely) {
            self.kept.rows[slot].session.take_number(part);
            self.kept.settle(slot);
        }
    }

    /// The session took a packet with this head.
    pub fn take_stamps(&mut self, near: u32, head: &PacketHead, moment: u64)
        ensures { self.new.rows ≡ in_session (with_stamps head.now moment) self.old.rows near }
    {
        if let Some(slot) = slot_near(&self.kept, near, self.likely) {
            self.kept.rows[slot].session.take_stamps(head, moment);
            self.kept.settle(slot);
        }
    }

    /// The session is confirmed, where it is half-open.
    pub fn confirm(&mut self, near: u32)
        ensures { self.new.rows ≡ in_session confirmed self.old.rows near }
    {
        if let Some(slot) = slot_near(&self.kept, near, self.likely) {
            let _ = self.kept.rows[slot].session.confirm();
            self.kept.settle(slot);
        }
    }

    /// This end closes the session from now on.
    pub fn close(&mut self, near: u32, moment: u64)
        ensures { self.new.rows ≡ in_session (closed_near moment) self.old.rows near }
    {
        if let Some(slot) = slot_near(&self.kept, near, self.likely) {
            let _ = self.kept.rows[slot].session.close(moment);
            self.kept.settle(slot);
        }
    }

    /// The session lingers from now on, since its peer closes it.
    pub fn linger(&mut self, near: u32, moment: u64)
        ensures { self.new.rows ≡ in_session (asked_to_close moment) self.old.rows near }
    {
        if let Some(slot) = slot_near(&self.kept, near, self.likely) {
            let _ = self.kept.rows[slot].session.take_close_request(moment);
            self.kept.settle(slot);
        }
    }

    /// What is due of the session counts as done.
    pub fn note_due(&mut self, near: u32, moment: u64)
        ensures { self.new.rows ≡ in_session (λ x. after_due (first_due x moment) moment x)
            self.old.rows near }
    {
        if let Some(slot) = slot_near(&self.kept, near, self.likely) {
            let _ = self.kept.rows[slot].session.due(moment);
            self.kept.settle(slot);
        }
    }

    /// The keepalive of the session counts as sent.
    pub fn note_keepalive(&mut self, near: u32, moment: u64)
        ensures { self.new.rows ≡ in_session (kept_alive moment) self.old.rows near }
    {
        if let Some(slot) = slot_near(&self.kept, near, self.likely) {
            let _ = self.kept.rows[slot].session.keepalive(moment);
            self.kept.settle(slot);
        }
    }

    /// A test of this address of the peer is pending from now on, with this token, where a datagram
    /// from there asks for one.
    pub fn test(&mut self, near: u32, from: &Address, token: [u8; 16], moment: u64)
        ensures { self.new.rows ≡ in_row (tested from.now token moment) self.old.rows near }
    {
        if let Some(slot) = slot_near(&self.kept, near, self.likely) {
            let row = &mut self.kept.rows[slot];
            let _ = row.moves.seen(row.session.address(), from, token, moment);
            self.kept.settle(slot);
        }
    }

    /// The session goes to an address from now on, from which these bytes came, which answer its
    /// test.
    pub fn move_to(&mut self, near: u32, from: &Address, bytes: &[u8])
        ensures { self.new.rows ≡ in_row (moved from.now bytes.now) self.old.rows near }
    {
        if let Some(slot) = slot_near(&self.kept, near, self.likely) {
            let row = &mut self.kept.rows[slot];
            let _ = row.moves.reply(from, bytes);
            row.session.move_to(*from);
            self.kept.settle(slot);
        }
    }
}
