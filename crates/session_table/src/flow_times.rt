//! What time makes due of the flows of the sessions, and what is done of it. None of it takes
//! memory.

ghost use Rattle.std.specs.Prelude.{◌≡◌, ◌<◌, ℕ, IfSome, IsSome, length};
ghost use Rattle.std.specs.FinMap.{get};
ghost use Rattle.endpoint_model.specs.FlowTimes.{late_marked};
ghost use Rattle.endpoint_model.specs.Sending.{session_packet};
ghost use Rattle.session_table.specs.FlowTimes.{AreLate, DataFalls, OverdueWaits, data_at};
ghost use Rattle.session_table.specs.FlowTimes.{data_gone, overdue_gone};
ghost use Rattle.keyed_slab.specs.KeyedSlab.{thing_at};
ghost use Rattle.keyed_slab.specs.SlotSet.{AreApart, slot_at};
ghost use Rattle.keyed_slab.specs.Walks.{AreChanged};
ghost use Rattle.session_table.specs.Inside.{IsKept, rows_in};
ghost use Rattle.session_table.specs.Table.{IsPacked, IsPackedBy, in_row};

use crate::kept::Kept;
use crate::sealing::{Packed, pack};
use crate::slot::slot_near;
use crate::table::SessionTable;
use endpoint_model::Row;
use keyed_slab::KeyedSlab;
use rtmfp_packet::begin_packet;

impl SessionTable {
    /// Marks as lost, in each session that is held, the numbers of its flows that are lost by time.
    /// A session with such numbers has one loss by time.
    pub fn lose_late(&mut self, moment: u64)
        ensures { AreLate moment self.old.rows self.new.rows }
    {
        self.kept.advance(moment);
        self.kept.lose_late(moment);
    }

    /// Abandons the first message of the session's flows that is sent no longer, where there is
    /// one.
    pub fn abandon_overdue(&mut self, near: u32, moment: u64)
        ensures rows { self.new.rows ≡ in_row (overdue_gone moment) self.old.rows near }
        ensures waits { IfSome (get self.old.rows near) (λ row. OverdueWaits moment row) }
    {
        if let Some(slot) = slot_near(&self.kept, near, self.likely) {
            abandon_in(&mut self.kept.rows[slot], moment);
            self.kept.settle(slot);
        }
    }

    /// Seals a packet of flow data in the session with this session ID, in a buffer that is lent
    /// for it: as many chunks as go, behind a head that has the timestamp of this moment. The flows
    /// keep that they went. Where there is no such session, all its counts are used, or the packet
    /// has more bytes than the limit, nothing is sealed.
    pub fn seal_data(&mut self, near: u32, moment: u64, limit: u16, blank: Vec<u8>) -> Packed
        requires blank { length blank.items ≡ 1200 }
        ensures answer { IsPackedBy limit moment (data_at moment) (get self.old.rows near) result }
        ensures rows { self.new.rows ≡ in_row (data_gone limit moment) self.old.rows near }
        // Where flow data is due, less is left to send then, and the same messages wait.
        ensures falls { IfSome (get self.old.rows near) (λ row. DataFalls moment row) }
    {
        match slot_near(&self.kept, near, self.likely) {
            Some(slot) => {
                let packed = seal_data_in(&mut self.kept.rows[slot], moment, limit, blank);
                self.kept.settle(slot);
                packed
            }
            None => Packed::Nothing,
        }
    }
}

impl Kept {
    /// Tells the deadlines that a moment has come.
    fn advance(&mut self, moment: u64)
        ensures { self.new ≡ self.old }
    {
        self.deadlines.advance(moment);
    }

    /// Marks the numbers that are lost by time in each row, and begins the round of this moment.
    /// Those whose sending flows are idle have none, and aren't looked at.
    fn lose_late(&mut self, moment: u64)
        requires { IsKept self.old.rows self.old.keys.keys self.old.deadlines self.old.busy self.old.round }
        ensures kept { IsKept self.new.rows self.new.keys.keys self.new.deadlines
            self.new.busy self.new.round }
        ensures late { AreLate moment (rows_in self.old.rows) (rows_in self.new.rows) }
    {
        lose_in_slots(&mut self.rows, self.busy.slots(), moment);
        self.round.begin(&self.rows, self.busy.slots(), moment);
    }
}

/// Marks the numbers that are lost by time in the row in each of these slots.
fn lose_in_slots(rows: &mut KeyedSlab<Row>, slots: &[usize], moment: u64)
    requires apart { AreApart slots.now }
    requires there { (place : ℕ) → place < length slots.now
        → IsSome (thing_at rows.old (slot_at slots.now place)) }
    ensures things { AreChanged (late_marked moment) rows.old.things rows.new.things slots.now
        (length slots.now) }
    ensures generations { rows.new.generations ≡ rows.old.generations }
{
    for index in 0..slots.len() {
        lose_in(&mut rows[slots[index]], moment);
    }
}

/// Marks the numbers of a session's flows that are lost by time.
fn lose_in(row: &mut Row, moment: u64)
    ensures { row.new ≡ late_marked moment row.old }
{
    row.flows.lose_late(&mut row.session, moment);
}

/// Abandons the first message of a session's flows that is sent no longer.
fn abandon_in(row: &mut Row, moment: u64)
    ensures row { row.new ≡ overdue_gone moment row.old }
    ensures waits { OverdueWaits moment row.old }
{
    let _ = row.flows.abandon_overdue(&row.session, moment);
}

/// Seals a packet of flow data in a session.
fn seal_data_in(row: &mut Row, moment: u64, limit: u16, blank: Vec<u8>) -> Packed
    requires blank { length blank.items ≡ 1200 }
    ensures answer { IsPacked limit (session_packet row.old.session moment
        (data_at moment row.old)) row.old.session result }
    ensures row { row.new ≡ data_gone limit moment row.old }
    ensures falls { DataFalls moment row.old }
{
    let mut packet = begin_packet(&row.session.head(moment));
    row.flows.fill(&row.session, moment, &mut packet);
    pack(&mut row.session, limit, blank, packet)
}
