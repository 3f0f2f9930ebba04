//! The numbers of a sending flow above its forward number.

ghost use Rattle.std.specs.Prelude.{◌≡◌, ◌+◌, ◌-◌, ◌<◌, ◌≤◌, ◌^◌, ◌∷◌, ◌++◌, [], IfOk, OnOk};
ghost use Rattle.std.specs.Prelude.{length, slice_set, drop, max, not};
ghost use Rattle.std.specs.Prelude.{true, false, Some, None};
ghost use Rattle.std.specs.List.{sum_by};
ghost use Rattle.std.specs.VecDeque.{deque_len, deque_capacity};
ghost use Rattle.flow_send.specs.Rows.{row_at, stored_of, totals_of, in_flight, any_flying};
ghost use Rattle.flow_send.specs.Rows.{between, any_between, most_between, settled_front};
ghost use Rattle.flow_send.specs.Rows.{front_settled, first_index, is_lost, is_unsent, is_settled};
ghost use Rattle.flow_send.specs.Rows.{is_acknowledged, lost_of};
ghost use Rattle.flow_send.specs.Sender.{give_up_row, lost_if_late, is_late, is_spent_row};
ghost use Rattle.flow_send.specs.Choice.{sent_row};
ghost use Rattle.flow_send.specs.Acks.{acknowledge_row, new_ordinal, count_ack, is_third};
ghost use Rattle.flow_send.specs.Ordered.{count_sent};
ghost use Rattle.flow_send.specs.Passed.{AllAcked};

use crate::finder::{Finder, Pending};
use crate::passed::Passed;
use crate::row::HeldRow;
use crate::state::State;
use crate::totals::Totals;
use std::alloc::{AllocError, Global};
use std::collections::VecDeque;
use std::marker::Model;

/// The rows in order, with sums over them. Contracts see them as their list and the number of rows
/// for which there is room.
#[derive(Drop)]
pub struct Rows {
    rows: VecDeque<HeldRow>,
    passed: Passed,
    /// Where rows are lost, and where they were never sent.
    lost_rows: Finder,
    unsent_rows: Finder,
    totals: Totals,
}

impl Model for Rows {
    ghost use Rattle.std.specs.Prelude.{◌≡◌, ◌-◌, min};
    ghost use Rattle.flow_send.specs.Passed.{ArePassed};
    ghost use Rattle.flow_send.specs.Finder.{Finds};
    ghost use Rattle.flow_send.specs.declared.finder.Pending.TheVariants.{First, Again};
    ghost use Rattle.std.specs.VecDeque.{deque_len, deque_capacity};
    ghost use Rattle.flow_send.specs.Rows.{Roomy, roomy, totals_of};

    ghost Value = { Roomy };

    ghost view = { λ q. roomy q.rows.items
        (min (deque_capacity q.rows - deque_len q.rows) q.passed.room) };

    ghost invariant = { λ q. (q.totals ≡ totals_of q.rows.items)
        × ArePassed q.passed.counts q.rows.items
        × Finds Again q.lost_rows q.rows.items × Finds First q.unsent_rows q.rows.items };
}

impl Rows {
    /// No row, and room for one.
    pub fn new(alloc: Global) -> Result<Rows, AllocError>
        ensures none { IfOk result (λ q. q.rows ≡ []) }
        ensures room { IfOk result (λ q. 1 ≤ q.room) }
    {
        let mut passed = Passed::new(alloc);
        passed.reserve(1)?;
        Ok(Rows {
            rows: VecDeque::with_capacity(alloc, 1)?,
            passed,
            lost_rows: Finder::new(),
            unsent_rows: Finder::new(),
            totals: Totals::NONE,
        })
    }

    pub fn len(&self) -> usize
        ensures { result ≡ length self.now.rows }
    {
        self.rows.len()
    }

    /// Makes room for so many more rows.
    pub fn reserve(&mut self, more: usize) -> Result<(), AllocError>
        ensures rows { self.new.rows ≡ self.old.rows }
        ensures room { OnOk result (more ≤ self.new.room) }
        ensures kept { self.old.room ≤ self.new.room }
    {
        self.rows.reserve(more)?;
        self.passed.reserve(more)
    }

    /// The bytes that the rows hold.
    pub fn stored(&self) -> u64
        ensures { result ≡ sum_by stored_of self.now.rows }
    {
        self.totals.stored
    }

    /// The bytes in flight.
    pub fn flight(&self) -> u64
        ensures { result ≡ in_flight self.now.rows }
    {
        self.totals.flight
    }

    /// Adds a row at the end.
    pub fn push(&mut self, row: HeldRow)
        requires room { 1 ≤ self.old.room }
        requires fits { sum_by stored_of self.old.rows + stored_of row < 2 ^ 64 }
        ensures rows { self.new.rows ≡ self.old.rows ++ row ∷ [] }
        ensures room { self.new.room + 1 ≡ self.old.room }
    {
        let added = row.totals();
        let state = row.state();
        let at = self.rows.len();
        self.lost_rows.note(Pending::Again, at, state);
        self.unsent_rows.note(Pending::First, at, state);
        self.rows.push_back_reserved(row);
        self.passed.push();
        self.totals = self.totals.moved(Totals::NONE, added);
    }

    /// Adds rows at the end.
    pub fn append(&mut self, mut more: VecDeque<HeldRow>)
        requires room { length more.items ≤ self.old.room }
        requires fits { sum_by stored_of self.old.rows + sum_by stored_of more.items < 2 ^ 64 }
        ensures rows { self.new.rows ≡ self.old.rows ++ more.items }
        ensures room { self.new.room + length more.items ≡ self.old.room }
    {
        while let Some(row) = more.pop_front() {
            self.push(row);
        }
    }

    fn give_up_at(&mut self, at: usize)
        requires { at < length self.old.rows }
        ensures rows { self.new.rows ≡ slice_set self.old.rows at
            (give_up_row (row_at self.old.rows at)) }
        ensures room { self.new.room ≡ self.old.room }
    {
        let row = &mut self.rows[at];
        let state = row.state();
        let before = row.totals();
        row.give_up();
        let after = row.totals();
        self.totals = self.totals.moved(before, after);
        self.clear_lost(at, state);
        self.clear_unsent(at, state);
    }

    /// A row isn't lost any more: where it was, the mark of its block goes, unless another row of
    /// it is.
    fn clear_lost(&mut self, at: usize, before: State)
        requires { at < length self.old.rows }
        ensures { self.new ≡ self.old }
    {
        if before == State::Lost {
            self.lost_rows.clear(&self.rows, Pending::Again, at);
        }
    }

    /// So it is of one that was unsent.
    fn clear_unsent(&mut self, at: usize, before: State)
        requires { at < length self.old.rows }
        ensures { self.new ≡ self.old }
    {
        if before == State::Unsent {
            self.unsent_rows.clear(&self.rows, Pending::First, at);
        }
    }

    /// Abandons the rows from one index to before another that aren't acknowledged.
    pub fn give_up(&mut self, from: usize, to: usize)
        requires order { from ≤ to }
        requires inside { to ≤ length self.old.rows }
        ensures rows { self.new.rows ≡ between give_up_row from to self.old.rows }
        ensures room { self.new.room ≡ self.old.room }
    {
        for at in from..to {
            self.give_up_at(at);
        }
    }

    fn acknowledge_at(&mut self, at: usize)
        requires { at < length self.old.rows }
        ensures rows { self.new.rows ≡ slice_set self.old.rows at
            (acknowledge_row (row_at self.old.rows at)) }
        ensures room { self.new.room ≡ self.old.room }
    {
        if self.rows[at].state().is_acknowledged() {
            return;
        }
        let row = &mut self.rows[at];
        let state = row.state();
        let before = row.totals();
        row.acknowledge();
        let after = row.totals();
        self.totals = self.totals.moved(before, after);
        self.clear_lost(at, state);
    }

    /// The ordinal of the last sending of a row that isn't acknowledged, else 0.
    fn new_ordinal(&self, at: usize) -> u64
        requires { at < length self.now.rows }
        ensures { result ≡ new_ordinal (row_at self.now.rows at) }
    {
        let row = &self.rows[at];
        if row.state() == State::Acknowledged {
            return 0;
        }
        row.ordinal()
    }

    /// Acknowledges the rows from one index to before another. The answer is the last ordinal of
    /// those that weren't acknowledged before.
    pub fn acknowledge(&mut self, from: usize, to: usize) -> u64
        requires order { from ≤ to }
        requires inside { to ≤ length self.old.rows }
        ensures rows { self.new.rows ≡ between acknowledge_row from to self.old.rows }
        ensures room { self.new.room ≡ self.old.room }
        ensures ordinal { result ≡ most_between new_ordinal from to self.old.rows }
    {
        let mut ordinal: u64 = 0;
        let mut at = from;
        while at < to {
            let known = self.known(at);
            if known > 0 {
                at = at.saturating_add(known).min(to);
                continue;
            }
            ordinal = ordinal.max(self.new_ordinal(at));
            self.acknowledge_at(at);
            at += 1;
        }
        self.note(from, to);
        ordinal
    }

    /// How many rows from an index on are known to be acknowledged.
    fn known(&self, at: usize) -> usize
        ensures { AllAcked result (drop at self.now.rows) }
    {
        self.passed.from(at)
    }

    /// Keeps that the rows from one index to before another are acknowledged.
    fn note(&mut self, from: usize, to: usize)
        requires { AllAcked (to - from) (drop from self.old.rows) }
        ensures { self.new ≡ self.old }
    {
        self.passed.note(from, to);
    }

    fn count_ack_at(&mut self, at: usize, ordinal: u64)
        requires { at < length self.old.rows }
        ensures rows { self.new.rows ≡ slice_set self.old.rows at
            (count_ack ordinal (row_at self.old.rows at)) }
        ensures room { self.new.room ≡ self.old.room }
    {
        if !self.rows[at].state().is_flying() {
            return;
        }
        let row = &mut self.rows[at];
        let before = row.totals();
        row.count_ack(ordinal);
        let after = row.totals();
        let state = row.state();
        self.totals = self.totals.moved(before, after);
        self.lost_rows.note(Pending::Again, at, state);
    }

    /// Counts it against a row whose last sending has this ordinal.
    pub fn count_sent(&mut self, at: usize, ordinal: u64, sent: u64)
        requires { at < length self.old.rows }
        ensures rows { self.new.rows ≡ slice_set self.old.rows at
            (count_sent ordinal sent (row_at self.old.rows at)) }
        ensures room { self.new.room ≡ self.old.room }
    {
        if self.rows[at].ordinal() == sent {
            self.count_ack_at(at, ordinal);
        }
    }

    /// Whether an ack of the sending with an ordinal makes a row lost.
    fn is_third(&self, at: usize, ordinal: u64) -> bool
        requires { at < length self.now.rows }
        ensures { result ≡ is_third ordinal (row_at self.now.rows at) }
    {
        self.rows[at].is_third(ordinal)
    }

    /// Counts an ack of the sending with an ordinal against the rows before an index. True where it
    /// makes one lost.
    pub fn count_acks(&mut self, to: usize, ordinal: u64) -> bool
        requires { to ≤ length self.old.rows }
        ensures rows { self.new.rows ≡ between (count_ack ordinal) 0 to self.old.rows }
        ensures room { self.new.room ≡ self.old.room }
        ensures lost { result ≡ any_between (is_third ordinal) 0 to self.old.rows }
    {
        let mut lost = false;
        for at in 0..to {
            lost |= self.is_third(at, ordinal);
            self.count_ack_at(at, ordinal);
        }
        lost
    }

    pub fn lose_at(&mut self, at: usize, moment: u64, resend_after: u64)
        requires { at < length self.old.rows }
        ensures rows { self.new.rows ≡ slice_set self.old.rows at
            (lost_if_late moment resend_after (row_at self.old.rows at)) }
        ensures room { self.new.room ≡ self.old.room }
    {
        if !self.rows[at].is_late(moment, resend_after) {
            return;
        }
        let row = &mut self.rows[at];
        let before = row.totals();
        row.lose_if_late(moment, resend_after);
        let after = row.totals();
        self.totals = self.totals.moved(before, after);
        self.lost_rows.note(Pending::Again, at, State::Lost);
    }

    pub fn is_late(&self, at: usize, moment: u64, resend_after: u64) -> bool
        requires { at < length self.now.rows }
        ensures { result ≡ is_late moment resend_after (row_at self.now.rows at) }
    {
        self.rows[at].is_late(moment, resend_after)
    }

    /// Marks as lost the rows before an index that are late. True where there is one.
    pub fn lose_late(&mut self, to: usize, moment: u64, resend_after: u64) -> bool
        requires { to ≤ length self.old.rows }
        ensures rows { self.new.rows ≡ between (lost_if_late moment resend_after) 0 to
            self.old.rows }
        ensures room { self.new.room ≡ self.old.room }
        ensures late { result ≡ any_between (is_late moment resend_after) 0 to self.old.rows }
    {
        let mut late = false;
        for at in 0..to {
            late |= self.is_late(at, moment, resend_after);
            self.lose_at(at, moment, resend_after);
        }
        late
    }

    /// A row that isn't acknowledged is sent. The mark of a block of unsent rows may stay: these
    /// are looked for behind the last row that was sent.
    pub fn send(&mut self, at: usize, moment: u64, ordinal: u64)
        requires there { at < length self.old.rows }
        requires open { is_acknowledged (row_at self.old.rows at).state ≡ false }
        ensures rows { self.new.rows ≡ slice_set self.old.rows at
            (sent_row moment ordinal (row_at self.old.rows at)) }
        ensures room { self.new.room ≡ self.old.room }
    {
        let row = &mut self.rows[at];
        let state = row.state();
        let before = row.totals();
        row.send(moment, ordinal);
        let after = row.totals();
        self.totals = self.totals.moved(before, after);
        self.clear_lost(at, state);
    }

    /// Whether a row is in flight.
    pub fn any_flying(&self) -> bool
        ensures { result ≡ any_flying self.now.rows }
    {
        self.totals.flying > 0
    }

    /// How many rows are lost.
    pub fn lost(&self) -> u64
        ensures { result ≡ sum_by lost_of self.now.rows }
    {
        self.totals.lost
    }

    /// Whether a row is lost.
    pub fn any_lost(&self) -> bool
        ensures { result ≡ false → sum_by lost_of self.now.rows ≡ 0 }
    {
        self.totals.lost > 0
    }

    pub fn row(&self, at: usize) -> &HeldRow
        requires { at < length self.now.rows }
        ensures { result.now ≡ row_at self.now.rows at }
    {
        &self.rows[at]
    }

    /// Whether a row from one index to before another isn't settled. The way over those that are
    /// known to be acknowledged is kept where one behind them may wait. So looks at the same rows
    /// are few steps each, however many of them are told one by one.
    pub fn waits(&mut self, from: usize, to: usize) -> bool
        requires order { from ≤ to }
        requires inside { to ≤ length self.old.rows }
        ensures waits { result ≡ any_between (λ r. not (is_settled r.state)) from to
            self.old.rows }
        ensures same { self.new ≡ self.old }
    {
        let end = self.known_to(from, to);
        if end == to {
            return false;
        }
        self.note(from, end);
        self.waits_from(end, to)
    }

    /// Where the rows from one index on that are known to be acknowledged end, at another one at
    /// the latest.
    fn known_to(&self, from: usize, to: usize) -> usize
        requires { from ≤ to }
        ensures order { from ≤ result }
        ensures inside { result ≤ to }
        ensures acked { AllAcked (result - from) (drop from self.now.rows) }
    {
        let mut at = from;
        while at < to {
            let known = self.known(at);
            if known == 0 {
                return at;
            }
            at = at.saturating_add(known).min(to);
        }
        to
    }

    /// The same, where nothing is known of the first of them. As a rule that one waits.
    fn waits_from(&self, from: usize, to: usize) -> bool
        requires order { from ≤ to }
        requires inside { to ≤ length self.now.rows }
        ensures { result ≡ any_between (λ r. not (is_settled r.state)) from to self.now.rows }
    {
        for at in from..to {
            if !self.rows[at].state().is_settled() {
                return true;
            }
        }
        false
    }

    /// Whether a lost row from one index to before another was sent again as often as a limit
    /// allows.
    pub fn is_spent(&self, from: usize, to: usize, limit: u32) -> bool
        requires order { from ≤ to }
        requires inside { to ≤ length self.now.rows }
        ensures { result ≡ any_between (is_spent_row limit) from to self.now.rows }
    {
        if self.totals.lost == 0 {
            return false;
        }
        for at in from..to {
            if self.rows[at].is_spent(limit) {
                return true;
            }
        }
        false
    }

    /// The index of the first lost row.
    pub fn first_lost(&self) -> Option<usize>
        ensures { result ≡ first_index is_lost 0 self.now.rows }
    {
        if self.totals.lost == 0 {
            return None;
        }
        self.lost_rows.first(&self.rows, Pending::Again, 0)
    }

    /// The index of the first unsent row, where none before an index is unsent.
    pub fn first_unsent(&self, from: usize) -> Option<usize>
        requires { first_index is_unsent 0 self.now.rows
            ≡ first_index is_unsent from (drop from self.now.rows) }
        ensures { result ≡ first_index is_unsent 0 self.now.rows }
    {
        self.unsent_rows.first(&self.rows, Pending::First, from)
    }

    fn front_settled(&self) -> bool
        ensures { result ≡ front_settled self.now.rows }
    {
        self.rows.len() > 0 && self.rows[0].state().is_settled()
    }

    fn pop(&mut self)
        requires { 0 < length self.old.rows }
        ensures rows { self.new.rows ≡ drop 1 self.old.rows }
        ensures room { self.old.room ≤ self.new.room }
    {
        let before = self.rows[0].totals();
        let _ = self.rows.pop_front();
        self.passed.pop();
        self.lost_rows.pop();
        self.unsent_rows.pop();
        self.totals = self.totals.moved(before, Totals::NONE);
    }

    /// Takes away the rows at the front that are settled. The answer is their number.
    pub fn settle(&mut self) -> u64
        ensures count { result ≡ settled_front self.old.rows }
        ensures rows { self.new.rows ≡ drop (settled_front self.old.rows) self.old.rows }
        ensures room { self.old.room ≤ self.new.room }
    {
        let all = self.len();
        let mut count = 0;
        while count < all && self.front_settled() {
            self.pop();
            count += 1;
        }
        count as u64
    }
}
