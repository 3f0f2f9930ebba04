//! The sendings of a flow in their order, by which an ack finds the numbers that it counts against.

ghost use Rattle.std.specs.Prelude.{ℕ, ◌≡◌, ◌+◌, ◌<◌, ◌≤◌, [], length, true, false, OnOk};
ghost use Rattle.std.specs.Prelude.{map, slice_get};
ghost use Rattle.std.specs.List.{list_any};
ghost use Rattle.flow_send.specs.Rows.{map_rows, between, any_between, any_row, any_flying};
ghost use Rattle.flow_send.specs.Sender.{is_late, lost_if_late};
ghost use Rattle.flow_send.specs.Acks.{count_ack, is_third};
ghost use Rattle.flow_send.specs.Ordered.{EndsBefore, IsComplete, Follows, IsAdded, count_one};
ghost use Rattle.flow_send.specs.Ordered.{AllOther, IsLast, IsPruned, EndsBy, lose_one, is_late_one};
ghost use Rattle.flow_send.specs.Messages.{InLine};
ghost use Rattle.flow_send.specs.Marks.{AllRows, Grows, Noted, WillCover, is_losing};

use crate::backlog::Backlog;
use crate::loss::Loss;
use crate::marks::Marks;
use crate::rows::Rows;
use std::alloc::{AllocError, Global};
use std::collections::VecDeque;
use std::marker::Model;

/// The sendings, each by its ordinal, its number and its moment, from the oldest one of a number in
/// flight on. One of a number that was sent again, or isn't in flight any more, is passed over.
/// Where there is no room for one, ordinals stand still or a moment goes back, the rows themselves
/// are gone through.
#[derive(Drop)]
pub struct Sendings {
    whole: bool,
    queue: VecDeque<(u64, u64, u64)>,
}

impl Model for Sendings {
    ghost use Rattle.std.specs.Prelude.{◌-◌};
    ghost use Rattle.std.specs.VecDeque.{deque_len, deque_capacity};
    ghost use Rattle.flow_send.specs.Ordered.{Ordered, ordered};

    ghost Value = { Ordered };

    ghost view = { λ s. ordered s.whole s.queue.items
        (deque_capacity s.queue - deque_len s.queue) };
}

impl Sendings {
    pub fn new(alloc: Global) -> Sendings
        ensures whole { result.whole ≡ true }
        ensures queue { result.queue ≡ [] }
    {
        Sendings {
            whole: true,
            queue: VecDeque::new(alloc),
        }
    }

    /// Makes room for so many in all.
    pub fn reserve(&mut self, most: usize) -> Result<(), AllocError>
        ensures kept { self.new ≡ record self.old { room = self.new.room } }
        ensures room { OnOk result (most ≤ length self.new.queue + self.new.room) }
    {
        self.queue.reserve(most.saturating_sub(self.queue.len()))
    }

    /// Whether the last one was before an ordinal, and at a moment or before it.
    fn ends_before(&self, ordinal: u64, moment: u64) -> bool
        ensures ordinal { result ≡ true → EndsBefore ordinal self.now.queue }
        ensures moment { result ≡ true → EndsBy moment self.now.queue }
    {
        match self.queue.back() {
            Some((last, _, at)) => *last < ordinal && *at <= moment,
            None => true,
        }
    }

    /// Adds a sending.
    pub fn push(&mut self, ordinal: u64, number: u64, moment: u64)
        ensures { IsAdded ordinal number moment self.old self.new }
    {
        if !self.ends_before(ordinal, moment) || self.queue.len() >= self.queue.capacity() {
            self.whole = false;
            return;
        }
        self.queue.push_back_reserved((ordinal, number, moment));
    }

    /// Counts an ack of the sending with an ordinal against the rows before an index. True where it
    /// makes one lost.
    pub fn count_acks(&self, rows: &mut Rows, forward: u64, to: usize, ordinal: u64) -> bool
        requires inside { to ≤ length rows.old.rows }
        requires follows { Follows self.now (forward + 1) rows.old.rows }
        ensures rows { rows.new.rows ≡ between (count_ack ordinal) 0 to rows.old.rows }
        ensures room { rows.new.room ≡ rows.old.room }
        ensures lost { result ≡ any_between (is_third ordinal) 0 to rows.old.rows }
    {
        if !self.whole {
            return rows.count_acks(to, ordinal);
        }
        let before = rows.lost();
        self.count_before(rows, forward, to, ordinal);
        before < rows.lost()
    }

    /// Counts it, going through the sendings before it.
    fn count_before(&self, rows: &mut Rows, forward: u64, to: usize, ordinal: u64)
        requires inside { to ≤ length rows.old.rows }
        requires complete { IsComplete self.now.queue (forward + 1) rows.old.rows }
        ensures rows { rows.new.rows ≡ between (count_ack ordinal) 0 to rows.old.rows }
        ensures room { rows.new.room ≡ rows.old.room }
    {
        let mut index = 0;
        while index < self.queue.len() && self.queue[index].0 < ordinal {
            let (sent, number, _) = self.queue[index];
            count_sending(rows, forward, to, ordinal, sent, number);
            index += 1;
        }
    }

    /// Marks as lost the numbers in flight whose resend time has passed. True where there is one.
    pub fn lose_late(
        &mut self,
        rows: &mut Rows,
        forward: u64,
        moment: u64,
        resend_after: u64,
    ) -> bool
        requires { Follows self.old (forward + 1) rows.old.rows }
        ensures rows { rows.new.rows ≡ map (lost_if_late moment resend_after) rows.old.rows }
        ensures room { rows.new.room ≡ rows.old.room }
        ensures late { result ≡ list_any (is_late moment resend_after) rows.old.rows }
        ensures follows { Follows self.new (forward + 1) rows.new.rows }
    {
        if !self.whole {
            let late = rows.lose_late(rows.len(), moment, resend_after);
            self.prune(rows, forward);
            return late;
        }
        self.lose_oldest(rows, forward, moment, resend_after)
    }

    /// The same, going from the oldest sending on up to the first one that isn't late.
    fn lose_oldest(&mut self, rows: &mut Rows, forward: u64, moment: u64, resend_after: u64) -> bool
        requires { IsComplete self.old.queue (forward + 1) rows.old.rows }
        ensures rows { rows.new.rows ≡ map (lost_if_late moment resend_after) rows.old.rows }
        ensures room { rows.new.room ≡ rows.old.room }
        ensures late { result ≡ list_any (is_late moment resend_after) rows.old.rows }
        ensures complete { IsComplete self.new.queue (forward + 1) rows.new.rows }
    {
        let mut late = false;
        while let Some((_, number, at)) = oldest(&self.queue) {
            if u128::from(at) + u128::from(resend_after) > u128::from(moment) {
                return late;
            }
            late |= lose_number(rows, forward, number, moment, resend_after);
            let _ = self.queue.pop_front();
        }
        late
    }

    /// Marks the messages of the numbers that will be lost, where these were sent again as often as
    /// their limits allow.
    pub fn mark(&self, rows: &Rows, forward: u64, waiting: &Backlog, marks: &mut Marks, loss: Loss)
        requires follows { Follows self.now (forward + 1) rows.now.rows }
        requires line { InLine 0 waiting.now }
        ensures covers { WillCover marks.new waiting.now loss (forward + 1) rows.now.rows }
        ensures grows { Grows marks.old marks.new }
    {
        if !waiting.is_limited() {
            return;
        }
        if !self.whole {
            marks.mark_all();
            return;
        }
        self.mark_oldest(rows, forward, waiting, marks, loss);
    }

    /// The same, going from the oldest sending on up to the first one that may not be lost.
    fn mark_oldest(
        &self,
        rows: &Rows,
        forward: u64,
        waiting: &Backlog,
        marks: &mut Marks,
        loss: Loss,
    )
        requires complete { IsComplete self.now.queue (forward + 1) rows.now.rows }
        requires line { InLine 0 waiting.now }
        ensures covers { WillCover marks.new waiting.now loss (forward + 1) rows.now.rows }
        ensures grows { Grows marks.old marks.new }
    {
        let mut index: usize = 0;
        while let Some((sent, number, at)) = sending(&self.queue, index) {
            if !loss.may_lose(sent, at) {
                return;
            }
            mark_number(rows, forward, waiting, marks, loss, number);
            index += 1;
        }
    }

    /// Begins anew, as if nothing had been sent.
    fn begin_anew(&mut self)
        ensures queue { self.new.queue ≡ [] }
        ensures whole { self.new.whole ≡ true }
    {
        self.queue.clear();
        self.whole = true;
    }

    /// Takes away the oldest ones of numbers that aren't in flight since. Where no number is in
    /// flight none is needed, and none is left out any more.
    pub fn prune(&mut self, rows: &Rows, forward: u64)
        ensures follows { Follows self.old (forward + 1) rows.now.rows →
            Follows self.new (forward + 1) rows.now.rows }
        ensures front { IsPruned self.new.queue (forward + 1) rows.now.rows }
        ensures anew { any_flying rows.now.rows ≡ false →
            (self.new.queue ≡ []) × (self.new.whole ≡ true) }
    {
        if !rows.any_flying() {
            self.begin_anew();
            return;
        }
        while let Some((sent, number, _)) = self.queue.front().copied() {
            if is_last(rows, forward, sent, number) {
                break;
            }
            let _ = self.queue.pop_front();
        }
    }
}

/// Counts an ack against a number, where this was its last sending.
fn count_sending(rows: &mut Rows, forward: u64, to: usize, ordinal: u64, sent: u64, number: u64)
    requires { to ≤ length rows.old.rows }
    ensures rows { rows.new.rows ≡ map_rows (count_one (forward + 1 + to) ordinal sent number)
        (forward + 1) rows.old.rows }
    ensures room { rows.new.room ≡ rows.old.room }
{
    if number <= forward {
        return;
    }
    let at = number - forward - 1;
    if at >= to as u64 {
        return;
    }
    rows.count_sent(at as usize, ordinal, sent);
}

/// The oldest sending.
fn oldest(queue: &VecDeque<(u64, u64, u64)>) -> Option<(u64, u64, u64)>
    ensures { result ≡ slice_get queue.now.items 0 }
{
    queue.front().copied()
}

/// Marks a number as lost where it is late. The answer is whether it is.
fn lose_number(rows: &mut Rows, forward: u64, number: u64, moment: u64, resend_after: u64) -> bool
    ensures rows { rows.new.rows ≡ map_rows (lose_one moment resend_after number) (forward + 1)
        rows.old.rows }
    ensures room { rows.new.room ≡ rows.old.room }
    ensures late { result ≡ any_row (is_late_one moment resend_after number) (forward + 1)
        rows.old.rows }
{
    if number <= forward {
        return false;
    }
    let at = number - forward - 1;
    if at >= rows.len() as u64 {
        return false;
    }
    let late = rows.is_late(at as usize, moment, resend_after);
    rows.lose_at(at as usize, moment, resend_after);
    late
}

/// The sending at an index.
fn sending(queue: &VecDeque<(u64, u64, u64)>, index: usize) -> Option<(u64, u64, u64)>
    ensures { result ≡ slice_get queue.now.items index }
{
    queue.get(index).copied()
}

/// Marks the message of a number that will be lost, where it was sent again as often as its limit
/// allows.
fn mark_number(
    rows: &Rows,
    forward: u64,
    waiting: &Backlog,
    marks: &mut Marks,
    loss: Loss,
    number: u64,
)
    requires { InLine 0 waiting.now }
    ensures covers { AllRows (λ k r. k ≡ number → is_losing loss r ≡ true →
        Noted marks.new waiting.now k r.resends) (forward + 1) rows.now.rows }
    ensures grows { Grows marks.old marks.new }
{
    if number <= forward {
        return;
    }
    let at = number - forward - 1;
    if at >= rows.len() as u64 {
        return;
    }
    let row = rows.row(at as usize);
    if row.is_losing(loss) {
        waiting.mark(marks, number, row.resends());
    }
}

/// Whether a number is in flight since this sending.
fn is_last(rows: &Rows, forward: u64, sent: u64, number: u64) -> bool
    ensures other { result ≡ false → (moment : ℕ) →
        AllOther (sent, number, moment) (forward + 1) rows.now.rows }
    ensures last { result ≡ true → IsLast sent number (forward + 1) rows.now.rows }
{
    if number <= forward {
        return false;
    }
    let at = number - forward - 1;
    if at >= rows.len() as u64 {
        return false;
    }
    let row = rows.row(at as usize);
    row.state().is_flying() && row.ordinal() == sent
}
