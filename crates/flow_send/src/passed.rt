//! Which rows are known to be acknowledged, so that an ack goes over what was told before in few
//! steps.

ghost use Rattle.std.specs.Prelude.{◌≡◌, ◌+◌, ◌-◌, ◌<◌, ◌≤◌, [], List, OnOk, drop, get_or, length};
ghost use Rattle.flow_send.specs.Rows.{Row};
ghost use Rattle.flow_send.specs.Passed.{AllAcked, ArePassed};

use std::alloc::{AllocError, Global};
use std::collections::VecDeque;
use std::marker::Model;

/// Of each row, how many from it on are known to be acknowledged.
#[derive(Drop)]
pub struct Passed {
    counts: VecDeque<usize>,
}

impl Model for Passed {
    ghost use Rattle.std.specs.Prelude.{◌-◌};
    ghost use Rattle.std.specs.VecDeque.{deque_len, deque_capacity};
    ghost use Rattle.flow_send.specs.Passed.{Known, known};

    ghost Value = { Known };

    ghost view = { λ p. known p.counts.items (deque_capacity p.counts - deque_len p.counts) };
}

impl Passed {
    pub fn new(alloc: Global) -> Passed
        ensures { result.counts ≡ [] }
    {
        Passed {
            counts: VecDeque::new(alloc),
        }
    }

    /// Makes room for so many more rows.
    pub fn reserve(&mut self, more: usize) -> Result<(), AllocError>
        ensures counts { self.new.counts ≡ self.old.counts }
        ensures room { OnOk result (more ≤ self.new.room) }
        ensures kept { self.old.room ≤ self.new.room }
    {
        self.counts.reserve(more)
    }

    /// A row is added, of which nothing is known.
    pub fn push(&mut self)
        requires { 1 ≤ self.old.room }
        ensures counts { (rows : List Row) → ArePassed self.old.counts rows →
            ArePassed self.new.counts rows }
        ensures room { self.new.room + 1 ≡ self.old.room }
    {
        self.counts.push_back_reserved(0);
    }

    /// The first row is taken away.
    pub fn pop(&mut self)
        ensures counts { self.new.counts ≡ drop 1 self.old.counts }
        ensures room { self.old.room ≤ self.new.room }
    {
        let _ = self.counts.pop_front();
    }

    /// How many rows from an index on are known to be acknowledged.
    pub fn from(&self, at: usize) -> usize
        ensures { (rows : List Row) → ArePassed self.now.counts rows →
            AllAcked result (drop at rows) }
    {
        if at < self.counts.len() {
            return self.counts[at];
        }
        0
    }

    /// The rows from one index to before another are acknowledged. Each of them that a later ack
    /// may stop at leads to the end, or further where more was known, so the way there gets shorter
    /// each time.
    pub fn note(&mut self, from: usize, to: usize)
        ensures counts { (rows : List Row) → AllAcked (to - from) (drop from rows) →
            ArePassed self.old.counts rows → ArePassed self.new.counts rows }
        ensures reaches { from < length self.old.counts →
            to - from ≤ get_or self.new.counts from 0 }
        ensures room { self.new.room ≡ self.old.room }
    {
        let mut at = from;
        while at < to && at < self.counts.len() {
            let known = self.counts[at];
            self.counts[at] = known.max(to - at);
            at = at.saturating_add(known.max(1));
        }
    }
}
