//! The acks that a session owes.

ghost use Rattle.std.specs.Prelude.{◌≡◌, ◌<◌, length, true};
ghost use Rattle.std.specs.FinMap.{get};
ghost use Rattle.session_flows.specs.Owing.{owed_count, owes, owing_none};
ghost use Rattle.endpoint_model.specs.Sending.{session_packet};
ghost use Rattle.endpoint_model.specs.FlowChunks.{owes_by};
ghost use Rattle.session_table.specs.Chunks.{acked, acks_at, of_flows, owed_at};
ghost use Rattle.session_table.specs.Table.{IsPacked, IsPackedBy, in_row};

use crate::sealing::{Packed, pack};
use crate::slot::slot_near;
use crate::table::SessionTable;
use endpoint_model::Row;
use rtmfp_packet::begin_packet;

impl SessionTable {
    /// Seals a packet of the acks that the session owes, as many as have room, in a buffer that is
    /// lent for it: its head has the timestamp of this moment. Where all the session's counts are
    /// used, or the packet has more bytes than the limit, nothing is sealed, and they are owed no
    /// longer all the same.
    pub fn seal_acks(&mut self, near: u32, moment: u64, limit: u16, blank: Vec<u8>) -> Packed
        requires { length blank.items ≡ 1200 }
        ensures answer { IsPackedBy limit moment (acks_at moment) (get self.old.rows near) result }
        ensures rows { self.new.rows ≡ in_row (acked limit moment) self.old.rows near }
        // Where some are owed, fewer are afterwards.
        ensures falls { owes_by (get self.old.rows near) ≡ true →
            owed_at (get self.new.rows near) < owed_at (get self.old.rows near) }
    {
        match slot_near(&self.kept, near, self.likely) {
            Some(slot) => {
                let packed = seal_acks_of(&mut self.kept.rows[slot], moment, limit, blank);
                self.kept.settle(slot);
                packed
            }
            None => Packed::Nothing,
        }
    }

    /// The session owes no acks any more: those that found no memory aren't sent.
    pub fn forget_acks(&mut self, near: u32)
        ensures { self.new.rows ≡ in_row (of_flows owing_none) self.old.rows near }
    {
        if let Some(slot) = slot_near(&self.kept, near, self.likely) {
            self.kept.rows[slot].flows.forget_acks();
            self.kept.settle(slot);
        }
    }
}

/// Seals a packet of the acks that a session owes.
fn seal_acks_of(row: &mut Row, moment: u64, limit: u16, blank: Vec<u8>) -> Packed
    requires { length blank.items ≡ 1200 }
    ensures answer { IsPacked limit (session_packet row.old.session moment
        (acks_at moment row.old)) row.old.session result }
    ensures row { row.new ≡ acked limit moment row.old }
    ensures falls { owes row.old.flows ≡ true →
        owed_count row.new.flows < owed_count row.old.flows }
{
    let mut packet = begin_packet(&row.session.head(moment));
    row.flows.put_acks(&mut packet);
    pack(&mut row.session, limit, blank, packet)
}
