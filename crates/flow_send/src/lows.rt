//! Moments before which no deadline is, by the numbers that messages begin with.

ghost use Rattle.std.specs.Prelude.{◌≡◌, ◌≢◌, ℕ, ◌+◌, ◌/◌, ◌%◌, ◌<◌, ◌≤◌, [], IfOk, OnOk};
ghost use Rattle.std.specs.Prelude.{length, replicate, get_or};
ghost use Rattle.flow_send.specs.Deadlines.{IsNotBefore};
ghost use Rattle.flow_send.specs.Lows.{block_of, low_at, IsTop, IsTopBeside};
ghost use Rattle.flow_send.specs.Marks.{IsFirstBlock};

use crate::marks::Marks;
use std::alloc::{AllocError, Global};
use std::marker::Model;

/// The numbers of a block.
const BLOCK: u64 = 64;

/// The places that blocks use in turn. Two blocks that use one place share its moment.
pub const PLACES: u64 = 2_056;

/// So many places one after another are a group. The last group has fewer.
pub const GROUP: u64 = 32;

/// So many groups have all places.
pub const GROUPS: u64 = 65;

/// The moments of the places. Before there is a deadline there are no places.
#[derive(Drop)]
pub struct Lows {
    lows: Vec<u64>,
    /// For each group a moment before which none of its places' moments is.
    tops: Vec<u64>,
}

impl Model for Lows {
    ghost use Rattle.std.specs.Prelude.{◌≡◌, ◌<◌, List, ℕ, length};
    ghost use Rattle.flow_send.specs.Lows.{AreTops};

    ghost Value = { List ℕ };

    ghost view = { λ s. s.lows.items };

    ghost invariant = { λ s. (0 < length s.lows.items → length s.lows.items ≡ 2056) ×
        (0 < length s.lows.items → length s.tops.items ≡ 65) ×
        AreTops s.tops.items s.lows.items };
}

/// The block of a number.
pub fn block_of(number: u64) -> u64
    ensures { result ≡ block_of number }
{
    number / BLOCK
}

/// The group of a place.
pub fn group_of(place: usize) -> usize
    ensures { result ≡ place / 32 }
{
    place / GROUP as usize
}

/// How many blocks from one on have their places in one group, one after another.
pub fn rest_of_group(block: u64) -> u64
    ensures some { 1 ≤ result }
    ensures group { block % 2056 % 32 + result ≤ 32 }
    ensures turn { block % 2056 + result ≤ 2056 }
{
    let place = block % PLACES;
    (GROUP - place % GROUP).min(PLACES - place)
}

/// So many last moments.
fn last_moments(alloc: Global, count: usize) -> Result<Vec<u64>, AllocError>
    ensures { IfOk result (λ all. all.items ≡ replicate count 18446744073709551615) }
{
    let mut all = Vec::with_capacity(alloc, count)?;
    all.resize(count, u64::MAX)?;
    Ok(all)
}

impl Lows {
    pub fn new(alloc: Global) -> Lows
        ensures { result ≡ [] }
    {
        Lows {
            lows: Vec::new(alloc),
            tops: Vec::new(alloc),
        }
    }

    /// The moment before which no deadline of a block is.
    pub fn at(&self, block: u64) -> u64
        ensures { result ≡ low_at self.now block }
    {
        self.at_place((block % PLACES) as usize)
    }

    /// The moment of a place.
    fn at_place(&self, place: usize) -> u64
        ensures { result ≡ get_or self.now place 18446744073709551615 }
    {
        match self.lows.get(place) {
            Some(low) => *low,
            None => u64::MAX,
        }
    }

    /// Keeps that there is a message with a number and this deadline.
    pub fn note(&mut self, number: u64, deadline: Option<u64>) -> Result<(), AllocError>
        ensures lower { (b : ℕ) → low_at self.new b ≤ low_at self.old b }
        ensures own { OnOk result (IsNotBefore (low_at self.new (block_of number)) deadline) }
    {
        let Some(deadline) = deadline else {
            return Ok(());
        };
        self.make()?;
        let block = block_of(number);
        let low = self.at(block).min(deadline);
        let top = self.top(block).min(low);
        self.put(block, low, top);
        Ok(())
    }

    /// Makes the places.
    fn make(&mut self) -> Result<(), AllocError>
        ensures made { OnOk result (2056 ≤ length self.new) }
        ensures same { (b : ℕ) → low_at self.new b ≡ low_at self.old b }
    {
        if self.lows.len() > 0 {
            return Ok(());
        }
        let alloc = *self.lows.allocator();
        let tops = last_moments(alloc, GROUPS as usize)?;
        self.lows = last_moments(alloc, PLACES as usize)?;
        self.tops = tops;
        Ok(())
    }

    /// A moment before which none of the group of a block's place is.
    fn top(&self, block: u64) -> u64
        ensures { IsTop (block % 2056) self.now result }
    {
        match self.tops.get(group_of((block % PLACES) as usize)) {
            Some(top) => *top,
            None => u64::MAX,
        }
    }

    /// Such a moment, where one place of the group will have this one.
    fn top_with(&self, place: usize, low: u64) -> u64
        requires { place < 2056 }
        ensures own { result ≤ low }
        ensures others { IsTopBeside place self.now result }
    {
        let first = group_of(place) * GROUP as usize;
        let mut top = low;
        for other in first..first + GROUP as usize {
            if other != place {
                top = top.min(self.at_place(other));
            }
        }
        top
    }

    /// Sets the moment of a block's place, which is there, and that of its group.
    fn put(&mut self, block: u64, low: u64, top: u64)
        requires inside { block % 2056 < length self.old }
        requires own { top ≤ low }
        requires others { IsTopBeside (block % 2056) self.old top }
        ensures own { low_at self.new block ≡ low }
        ensures others { (b : ℕ) → b % 2056 ≢ block % 2056 →
            low_at self.new b ≡ low_at self.old b }
    {
        let place = (block % PLACES) as usize;
        self.lows[place] = low;
        self.tops[group_of(place)] = top;
    }

    /// Sets the moment of a block's place, which is there.
    pub fn set(&mut self, block: u64, low: u64)
        requires { block % 2056 < length self.old }
        ensures own { low_at self.new block ≡ low }
        ensures others { (b : ℕ) → b % 2056 ≢ block % 2056 →
            low_at self.new b ≡ low_at self.old b }
    {
        let top = self.top_with((block % PLACES) as usize, low);
        self.put(block, low, top);
    }

    /// How many blocks from one on have no moment before one, as far as a look at its group or at
    /// itself tells.
    pub fn quiet(&self, block: u64, moment: u64) -> u64
        ensures { (b : ℕ) → block ≤ b → b < block + result → moment ≤ low_at self.now b }
    {
        if self.top(block) >= moment {
            return rest_of_group(block);
        }
        if self.at(block) >= moment {
            return 1;
        }
        0
    }

    /// The first block from one to before another that is marked, or whose moment is before one.
    pub fn first_block(&self, marks: &Marks, from: u64, to: u64, moment: u64) -> Option<u64>
        ensures { IsFirstBlock self.now marks.now from to moment result }
    {
        let mut block = from;
        while block < to {
            let quiet = self.quiet(block, moment).min(marks.quiet(block));
            if quiet == 0 {
                return Some(block);
            }
            block = block.saturating_add(quiet);
        }
        None
    }
}
