//! What time makes due of the sessions.

ghost use Rattle.std.specs.Prelude.{◌≡◌, IfNone, IfSome, IsSome, Some};
ghost use Rattle.keyed_slab.specs.KeyedSlab.{thing_at};
ghost use Rattle.endpoint_model.specs.FlowTimes.{is_row_due, row_due};
ghost use Rattle.session_table.specs.FlowTimes.{flows_due, still_due};
ghost use Rattle.session_table.specs.Inside.{IsFirst, IsKept, NonePasses, better_of, rows_in};
ghost use Rattle.session_table.specs.Table.{due_in, near_of, under};

use crate::kept::Kept;
use crate::row_facts::near_of;
use crate::table::SessionTable;
use endpoint_model::{Row, RowDue};
use keyed_slab::KeyedSlab;

/// The first thing that is due of a session at a moment: its end, the end of its closing, or its
/// close again; a message that is sent no longer; flow data; or a keepalive.
fn row_due(row: &Row, moment: u64) -> Option<RowDue>
    ensures { result ≡ row_due moment row.now }
{
    match row.session.first_due(moment) {
        Some(due) => Some(RowDue::Session(due)),
        None => flows_due(row, moment),
    }
}

/// The same where neither an end nor a close is due.
fn flows_due(row: &Row, moment: u64) -> Option<RowDue>
    ensures { result ≡ flows_due moment row.now }
{
    match row.flows.first_overdue(&row.session, moment) {
        Some((flow, seq)) => Some(RowDue::Abandon { flow, seq }),
        None => still_due(row, moment),
    }
}

/// Flow data, or else a keepalive.
fn still_due(row: &Row, moment: u64) -> Option<RowDue>
    ensures { result ≡ still_due moment row.now }
{
    if row.flows.is_data_due(&row.session, moment) {
        return Some(RowDue::Data);
    }
    if row.session.needs_keepalive(moment) {
        return Some(RowDue::Keepalive);
    }
    None
}

/// Whether something is due of a session at a moment.
pub(crate) fn is_row_due(row: &Row, moment: u64) -> bool
    ensures { result ≡ is_row_due moment row.now }
{
    row_due(row, moment).is_some()
}

/// The session ID of a row, and what is due of it.
fn due_of(row: &Row, moment: u64) -> Option<(u32, RowDue)>
    ensures { result ≡ under (near_of row.now) (row_due moment row.now) }
{
    match row_due(row, moment) {
        Some(due) => Some((near_of(row), due)),
        None => None,
    }
}

/// The slot with the lowest session ID of those of which something is due, once one more slot was
/// looked at.
fn better(rows: &KeyedSlab<Row>, moment: u64, best: Option<usize>, slot: usize) -> Option<usize>
    requires there { IsSome (thing_at rows.now slot) }
    requires best { IfSome best (λ other. IsSome (thing_at rows.now other)) }
    ensures { result ≡ better_of (is_row_due moment) rows.now best slot }
{
    let row = &rows[slot];
    if !is_row_due(row, moment) {
        return best;
    }
    match best {
        Some(other) => {
            if near_of(&rows[other]) <= near_of(row) {
                Some(other)
            } else {
                Some(slot)
            }
        }
        None => Some(slot),
    }
}

impl Kept {
    /// The slot of the row with the lowest session ID of those of which something is due at a
    /// moment. In the round of this moment no row is looked at twice, unless it was changed.
    pub(crate) fn first_due(&mut self, moment: u64) -> Option<usize>
        requires { IsKept self.old.rows self.old.keys.keys self.old.deadlines self.old.busy
            self.old.round }
        ensures kept { IsKept self.new.rows self.new.keys.keys self.new.deadlines self.new.busy
            self.new.round }
        ensures rest { self.new ≡ record self.old { round = self.new.round } }
        ensures none { IfNone result (NonePasses (is_row_due moment) self.old.rows) }
        ensures some { IfSome result (IsFirst (is_row_due moment) self.old.rows) }
    {
        if self.round.goes_on(moment) {
            return self.first_in_round(moment);
        }
        self.first_of_all(moment)
    }

    /// The same in the round of this moment.
    fn first_in_round(&mut self, moment: u64) -> Option<usize>
        requires kept { IsKept self.old.rows self.old.keys.keys self.old.deadlines self.old.busy
            self.old.round }
        requires moment { self.old.round.moment ≡ Some moment }
        ensures kept { IsKept self.new.rows self.new.keys.keys self.new.deadlines self.new.busy
            self.new.round }
        ensures rest { self.new ≡ record self.old { round = self.new.round } }
        ensures none { IfNone result (NonePasses (is_row_due moment) self.old.rows) }
        ensures some { IfSome result (IsFirst (is_row_due moment) self.old.rows) }
    {
        let own = self.deadlines.due(moment);
        match self.round.first_due(&self.rows, &self.keys, moment) {
            Some(slot) => better(&self.rows, moment, own, slot),
            None => own,
        }
    }

    /// The same outside of a round. Rows whose sending flows are idle are looked at only where
    /// their deadline has come.
    fn first_of_all(&self, moment: u64) -> Option<usize>
        requires { IsKept self.now.rows self.now.keys.keys self.now.deadlines self.now.busy
            self.now.round }
        ensures none { IfNone result (NonePasses (is_row_due moment) self.now.rows) }
        ensures some { IfSome result (IsFirst (is_row_due moment) self.now.rows) }
    {
        let slots = self.busy.slots();
        let mut best = self.deadlines.due(moment);
        for index in 0..slots.len() {
            best = better(&self.rows, moment, best, slots[index]);
        }
        best
    }
}

/// The session ID of the first of which something is due, whose slot this is, and what it is.
fn due_at(kept: &Kept, slot: Option<usize>, moment: u64) -> Option<(u32, RowDue)>
    requires kept { IsKept kept.now.rows kept.now.keys.keys kept.now.deadlines kept.now.busy
        kept.now.round }
    requires none { IfNone slot (NonePasses (is_row_due moment) kept.now.rows) }
    requires some { IfSome slot (IsFirst (is_row_due moment) kept.now.rows) }
    ensures { result ≡ due_in moment (rows_in kept.now.rows) }
{
    match slot {
        Some(slot) => due_of(&kept.rows[slot], moment),
        None => None,
    }
}

impl SessionTable {
    /// The first session, by rising session IDs, of which something is due at a moment, and what it
    /// is.
    pub fn first_due(&mut self, moment: u64) -> Option<(u32, RowDue)>
        ensures due { result ≡ due_in moment self.old.rows }
        ensures same { self.new ≡ self.old }
    {
        let slot = self.kept.first_due(moment);
        due_at(&self.kept, slot, moment)
    }
}
