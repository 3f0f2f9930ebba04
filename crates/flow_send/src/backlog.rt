//! The messages of a flow that are neither abandoned nor wholly acknowledged, by rising number.

ghost use Rattle.std.specs.Prelude.{◌≡◌, ◌+◌, ◌-◌, ◌<◌, ◌^◌, ◌∷◌, ◌++◌, [], OnOk, OnErr, List};
ghost use Rattle.std.specs.Prelude.{ℕ, length, Some, None, true, false, not, ◌||◌, ◌==◌, IfSome};
ghost use Rattle.std.specs.List.{sum_by, filter};
ghost use Rattle.std.specs.Option.{is_some};
ghost use Rattle.flow_send.specs.Sender.{message_at, without_message, first_number, first_overdue};
ghost use Rattle.flow_send.specs.Acks.{still_waits};
ghost use Rattle.flow_send.specs.Deadlines.{IsNotBefore, NoneBefore, NoneLimited, Unspent, Reach};
ghost use Rattle.flow_send.specs.Marks.{Covers, Grows, Noted, NoneSpentBefore, NoneSpentBeside};
ghost use Rattle.flow_send.specs.Steady.{Line};
ghost use Rattle.flow_send.specs.Messages.{InLine, OthersWait, keeps, keeps_at};
ghost use Rattle.flow_send.specs.Lows.{IsFoundIn, IsLowIn, IsLowFrom, AllInBlocks, overdue_in};

use crate::lows::{Lows, PLACES, block_of};
use crate::marks::Marks;
use crate::messages::Messages;
use crate::rows::Rows;
use crate::waiting::Waiting;
use rtmfp_data_chunks::AckedSpans;
use std::alloc::{AllocError, Global};
use std::marker::Model;

/// The messages that wait, with the sums of their bytes and fragments. Contracts see them as their
/// list.
#[derive(Drop)]
pub struct Backlog {
    messages: Messages,
    bytes: u64,
    fragments: u64,
    /// No deadline is before this moment.
    soonest: u64,
    /// Whether a message may have a limit of resends.
    limited: bool,
    lows: Lows,
}

impl Model for Backlog {
    ghost use Rattle.std.specs.Prelude.{◌≡◌, List};
    ghost use Rattle.std.specs.List.{sum_by};
    ghost use Rattle.flow_send.specs.declared.waiting.Waiting.{Waiting};
    ghost use Rattle.flow_send.specs.Deadlines.{Reach};
    ghost use Rattle.flow_send.specs.Lows.{AreLows};

    ghost Value = { List Waiting };

    ghost view = { λ b. b.messages };

    ghost invariant = { λ b. (b.bytes ≡ sum_by (λ w. w.size) b.messages) ×
        (b.fragments ≡ sum_by (λ w. w.count) b.messages) ×
        Reach b.soonest b.limited b.messages × AreLows b.lows b.messages };
}

impl Backlog {
    pub fn new(alloc: Global) -> Backlog
        ensures { result ≡ [] }
    {
        Backlog {
            messages: Messages::new(alloc),
            bytes: 0,
            fragments: 0,
            soonest: u64::MAX,
            limited: false,
            lows: Lows::new(alloc),
        }
    }

    pub fn len(&self) -> usize
        ensures { result ≡ length self.now }
    {
        self.messages.len()
    }

    /// The bytes of the messages.
    pub fn bytes(&self) -> u64
        ensures { result ≡ sum_by (λ w. w.size) self.now }
    {
        self.bytes
    }

    /// The fragments of the messages.
    pub fn fragments(&self) -> u64
        ensures { result ≡ sum_by (λ w. w.count) self.now }
    {
        self.fragments
    }

    /// Adds a message at the end.
    pub fn push(&mut self, message: Waiting) -> Result<(), AllocError>
        requires last { Line 0 message.number self.old }
        requires some { 0 < message.count }
        requires bytes { sum_by (λ w. w.size) self.old + message.size < 2 ^ 64 }
        requires fragments { sum_by (λ w. w.count) self.old + message.count < 2 ^ 64 }
        ensures pushed { OnOk result (self.new ≡ self.old ++ message ∷ []) }
        ensures err { OnErr result (self.new ≡ self.old) }
    {
        let (soonest, limited) = self.reach();
        self.lows.note(message.number, message.options.deadline)?;
        self.messages.push(message)?;
        self.bytes += message.size;
        self.fragments += message.count;
        self.soonest = soonest.min(message.latest());
        self.limited = limited || message.is_limited();
        Ok(())
    }

    /// The moment before which no deadline is, and whether a message may have a limit. An empty
    /// list begins again.
    fn reach(&self) -> (u64, bool)
        ensures { Reach result.0 result.1 self.now }
    {
        if self.messages.len() == 0 {
            return (u64::MAX, false);
        }
        (self.soonest, self.limited)
    }

    /// The message that begins at a number.
    pub fn find(&self, number: u64) -> Option<Waiting>
        ensures { result ≡ message_at number self.now }
    {
        self.messages.at(number)
    }

    /// Takes away the message that begins at a number.
    pub fn remove(&mut self, number: u64)
        ensures { self.new ≡ without_message number self.old }
    {
        if let Some(message) = self.messages.remove(number) {
            self.bytes -= message.size;
            self.fragments -= message.count;
        }
    }

    /// The number of the first message.
    pub fn first(&self) -> Option<u64>
        ensures { result ≡ first_number self.now }
    {
        self.messages.first()
    }

    /// Takes away the messages that don't wait any more, of which each has a number that an ack
    /// tells. So only those that have one are looked at.
    pub fn drop_done(&mut self, rows: &mut Rows, forward: u64, upto: u64, spans: &AckedSpans<'_>)
        requires inside { Line 0 (forward + 1 + length rows.old.rows) self.old }
        requires others { OthersWait upto spans.now (forward + 1) rows.old.rows self.old }
        ensures left { self.new ≡ filter (still_waits (forward + 1) rows.old.rows) self.old }
        ensures same { rows.new ≡ rows.old }
    {
        self.drop_upto(rows, forward, upto);
        let mut left = spans.iter();
        while let Some((first, last)) = left.next() {
            self.drop_told(rows, forward, first, last);
        }
    }

    /// Takes away those messages with a number up to one that don't wait any more. As a rule these
    /// are the first ones, and the message after them passes that number or begins behind it.
    fn drop_upto(&mut self, rows: &mut Rows, forward: u64, upto: u64)
        requires { Line 0 (forward + 1 + length rows.old.rows) self.old }
        ensures left { self.new ≡ filter (keeps (forward + 1) rows.old.rows 0 upto) self.old }
        ensures same { rows.new ≡ rows.old }
    {
        while let Some(message) = self.messages.front() {
            if message.number > upto {
                return;
            }
            if message.waits(rows, forward) {
                if message.passes(upto) {
                    return;
                }
                self.drop_told(rows, forward, 0, upto);
                return;
            }
            self.remove(message.number);
        }
    }

    /// Takes away those messages with a number between two that don't wait any more.
    fn drop_told(&mut self, rows: &mut Rows, forward: u64, low: u64, high: u64)
        requires { Line 0 (forward + 1 + length rows.old.rows) self.old }
        ensures left { self.new ≡ filter (keeps (forward + 1) rows.old.rows low high) self.old }
        ensures same { rows.new ≡ rows.old }
    {
        let mut next = self.messages.reaching(low);
        while let Some(number) = next {
            if number > high {
                break;
            }
            self.drop_unless_kept(rows, forward, low, high, number);
            next = self.messages.after(number);
        }
    }

    /// Takes away the message that begins at a number, where it has a number between two and
    /// doesn't wait any more.
    fn drop_unless_kept(&mut self, rows: &mut Rows, forward: u64, low: u64, high: u64, number: u64)
        requires { Line 0 (forward + 1 + length rows.old.rows) self.old }
        ensures left { self.new ≡ filter (λ y. not (y.number == number)
            || keeps (forward + 1) rows.old.rows low high y) self.old }
        ensures same { rows.new ≡ rows.old }
    {
        if self.is_kept(rows, forward, low, high, number) {
            return;
        }
        self.remove(number);
    }

    /// Whether the message that begins at a number has none of the numbers between two, or waits.
    fn is_kept(&self, rows: &mut Rows, forward: u64, low: u64, high: u64, number: u64) -> bool
        requires { Line 0 (forward + 1 + length rows.old.rows) self.now }
        ensures kept { result ≡ keeps_at (forward + 1) rows.old.rows low high
            (message_at number self.now) }
        ensures same { rows.new ≡ rows.old }
    {
        let Some(message) = self.messages.at(number) else {
            return true;
        };
        if !message.touches(low, high) {
            return true;
        }
        message.waits(rows, forward)
    }

    /// Whether a message may have a limit of resends.
    pub fn is_limited(&self) -> bool
        ensures { result ≡ false → NoneLimited self.now }
    {
        self.limited
    }

    /// Marks the block of the message that has a number, where so many resends are as many as its
    /// limit allows.
    pub fn mark(&self, marks: &mut Marks, number: u64, resends: u32)
        requires { InLine 0 self.now }
        ensures noted { Noted marks.new self.now number resends }
        ensures grows { Grows marks.old marks.new }
    {
        let Some(first) = self.messages.reaching(number) else {
            return;
        };
        match self.messages.at(first) {
            Some(message) if message.touches(number, number) => {
                if message.is_reached(resends) {
                    marks.mark(block_of(first));
                }
            }
            // Never so, but the clause of `reaching` doesn't say it.
            _ => marks.mark_all(),
        }
    }

    /// Whether a deadline may be before a moment.
    pub fn is_past(&self, moment: u64) -> bool
        ensures none { result ≡ false → NoneBefore moment self.now }
        ensures start { result ≡ true → 0 < moment }
    {
        moment > self.soonest
    }

    /// Whether no message can be overdue, as far as that can be told without looking at each.
    fn is_quiet(&self, rows: &Rows, moment: u64) -> bool
        ensures { result ≡ true → (n : ℕ) → first_overdue moment n rows.now.rows self.now ≡ None }
    {
        if moment > self.soonest {
            return false;
        }
        self.is_unspent(rows)
    }

    /// Whether no limit of resends can be passed.
    fn is_unspent(&self, rows: &Rows) -> bool
        ensures { result ≡ true → Unspent rows.now.rows self.now }
    {
        if !self.limited {
            return true;
        }
        !rows.any_lost()
    }

    /// The number of the first message whose deadline or limit of resends is passed. Only those are
    /// looked at that begin in a block with a mark, or with a deadline before the moment.
    fn look_at_blocks(&self, rows: &Rows, forward: u64, moment: u64, marks: &Marks) -> Option<u64>
        requires line { Line 0 (forward + 1 + length rows.now.rows) self.now }
        requires covers { Covers marks.now self.now (forward + 1) rows.now.rows }
        ensures { result ≡ first_overdue moment (forward + 1) rows.now.rows self.now }
    {
        let (from, to) = self.blocks(rows, forward);
        let mut next = self.lows.first_block(marks, from, to, moment);
        while let Some(block) = next {
            let found = self.look_in(rows, forward, moment, block);
            if found.is_some() {
                return found;
            }
            next = self.lows.first_block(marks, block + 1, to, moment);
        }
        None
    }

    /// The blocks that messages begin in, from one to before another.
    fn blocks(&self, rows: &Rows, forward: u64) -> (u64, u64)
        requires { Line 0 (forward + 1 + length rows.now.rows) self.now }
        ensures within { AllInBlocks result.0 result.1 self.now }
        ensures few { result.1 < 2 ^ 60 }
    {
        let first = self.messages.first().unwrap_or(0);
        let last = u128::from(forward) + rows.len() as u128;
        (block_of(first), (last / 64) as u64 + 1)
    }

    /// The first message of a block whose deadline or limit of resends is passed.
    fn look_in(&self, rows: &Rows, forward: u64, moment: u64, block: u64) -> Option<u64>
        requires { Line 0 (forward + 1 + length rows.now.rows) self.now }
        ensures { IsFoundIn moment (forward + 1) rows.now.rows block self.now result }
    {
        let mut next = self.messages.from(block.saturating_mul(64));
        while let Some(number) = next {
            if block_of(number) > block {
                break;
            }
            if self.is_overdue_in(rows, forward, moment, block, number) {
                return Some(number);
            }
            next = self.messages.after(number);
        }
        None
    }

    /// Whether the message that begins at a number begins in a block and is overdue.
    fn is_overdue_in(&self, rows: &Rows, forward: u64, moment: u64, block: u64, number: u64) -> bool
        requires { Line 0 (forward + 1 + length rows.now.rows) self.now }
        ensures { result ≡ overdue_in moment (forward + 1) rows.now.rows block
            (message_at number self.now) }
    {
        match self.messages.at(number) {
            Some(message) => {
                block_of(message.number) == block && message.is_overdue(rows, forward, moment)
            }
            None => false,
        }
    }

    /// A moment before which no deadline of the messages of a block is.
    fn low_in(&self, block: u64) -> u64
        requires { InLine 0 self.now }
        ensures { IsLowIn block self.now result }
    {
        let mut low = u64::MAX;
        let mut next = self.messages.from(block.saturating_mul(64));
        while let Some(number) = next {
            if block_of(number) > block {
                break;
            }
            low = low.min(self.latest_at(number));
            next = self.messages.after(number);
        }
        low
    }

    /// The deadline of the message that begins at a number, or the last moment.
    fn latest_at(&self, number: u64) -> u64
        ensures { IfSome (message_at number self.now)
            (λ w. IsNotBefore result w.options.deadline) }
    {
        match self.messages.at(number) {
            Some(message) => message.latest(),
            None => u64::MAX,
        }
    }

    /// A moment before which no deadline is of the messages of a block, and of those before another
    /// that use its place after it.
    fn low_from(&self, to: u64, block: u64) -> u64
        requires line { InLine 0 self.now }
        requires few { to < 2 ^ 60 }
        ensures { IsLowFrom block to self.now result }
    {
        let mut low = u64::MAX;
        let mut sharer = block;
        while sharer < to {
            low = low.min(self.low_in(sharer));
            sharer += PLACES;
        }
        low
    }

    /// Finds anew the moments of the blocks before one that are before a moment, so that they are
    /// passed over until the next deadline. As many first blocks as there are places use each place,
    /// so no others are gone through.
    fn raise(&mut self, rows: &Rows, forward: u64, moment: u64, end: u64)
        requires { Line 0 (forward + 1 + length rows.now.rows) self.old }
        ensures { self.new ≡ self.old }
    {
        if moment <= self.soonest {
            return;
        }
        let (from, to) = self.blocks(rows, forward);
        let last = end.min(to).min(from.saturating_add(PLACES));
        let mut block = from;
        while block < last {
            self.raise_block(from, to, moment, block);
            block = block.saturating_add(self.lows.quiet(block, moment).max(1));
        }
    }

    /// Finds anew the moment of a block's place, where it is before one. No block that messages begin
    /// in uses that place before this block.
    fn raise_block(&mut self, from: u64, to: u64, moment: u64, block: u64)
        requires within { AllInBlocks from to self.old }
        requires few { to < 2 ^ 60 }
        requires first { block < from + 2056 }
        requires line { InLine 0 self.old }
        ensures { self.new ≡ self.old }
    {
        if self.lows.at(block) >= moment {
            return;
        }
        let low = self.low_from(to, block);
        self.lows.set(block, low);
    }

    /// Takes away the marks of blocks before one, before which no message was sent again as often as
    /// its limit allows. A mark stays where a block behind that one may use its place, so only the
    /// last blocks are gone through, as many as there are places.
    fn clear(&self, rows: &Rows, forward: u64, marks: &mut Marks, end: u64)
        requires line { Line 0 (forward + 1 + length rows.now.rows) self.now }
        requires covers { Covers marks.old self.now (forward + 1) rows.now.rows }
        requires passed { NoneSpentBefore end (forward + 1) rows.now.rows self.now }
        ensures { Covers marks.new self.now (forward + 1) rows.now.rows }
    {
        if !marks.any() {
            return;
        }
        let (first, to) = self.blocks(rows, forward);
        let from = first.max(to.saturating_sub(PLACES));
        if end >= to {
            marks.forget_all();
            self.clear_blocks(rows, forward, marks, from, to);
            return;
        }
        self.clear_blocks(rows, forward, marks, from, end);
    }

    /// Takes away the marks of the blocks from one to before another, whose places no block uses of
    /// which a message was sent again as often as its limit allows.
    fn clear_blocks(&self, rows: &Rows, forward: u64, marks: &mut Marks, from: u64, end: u64)
        requires covers { Covers marks.old self.now (forward + 1) rows.now.rows }
        requires passed { NoneSpentBeside from end (forward + 1) rows.now.rows self.now }
        ensures { Covers marks.new self.now (forward + 1) rows.now.rows }
    {
        let mut block = from;
        while block < end {
            marks.clear(block);
            block = block.saturating_add(marks.bare(block).max(1));
        }
    }

    /// The number of the first message whose deadline or limit of resends is passed.
    pub fn look(&self, rows: &Rows, forward: u64, moment: u64, marks: &Marks) -> Option<u64>
        requires line { Line 0 (forward + 1 + length rows.now.rows) self.now }
        requires covers { Covers marks.now self.now (forward + 1) rows.now.rows }
        ensures { result ≡ first_overdue moment (forward + 1) rows.now.rows self.now }
    {
        if self.is_quiet(rows, moment) {
            return None;
        }
        self.look_at_blocks(rows, forward, moment, marks)
    }

    /// The number of the first message whose deadline or limit of resends is passed. The messages
    /// before it are looked at again only after the next deadline of their blocks, or where one of
    /// their blocks is marked anew.
    pub fn first_overdue(
        &mut self,
        rows: &Rows,
        forward: u64,
        moment: u64,
        marks: &mut Marks,
    ) -> Option<u64>
        requires line { Line 0 (forward + 1 + length rows.now.rows) self.old }
        requires covers { Covers marks.old self.old (forward + 1) rows.now.rows }
        ensures first { result ≡ first_overdue moment (forward + 1) rows.now.rows self.old }
        ensures same { self.new ≡ self.old }
        ensures covers { Covers marks.new self.old (forward + 1) rows.now.rows }
    {
        let number = self.look(rows, forward, moment, marks);
        let end = block_of(number.unwrap_or(u64::MAX));
        self.raise(rows, forward, moment, end);
        self.clear(rows, forward, marks, end);
        number
    }
}
