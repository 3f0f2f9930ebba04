//! Marks of blocks of numbers, by which messages are found that were sent again as often as their
//! limits allow.

ghost use Rattle.std.specs.Prelude.{ℕ, ◌≡◌, ◌≢◌, ◌+◌, ◌%◌, ◌<◌, ◌≤◌, true, false, IfOk};
ghost use Rattle.std.specs.Prelude.{replicate, get_or};
ghost use Rattle.flow_send.specs.Marks.{marked_at, Grows, IsBare, IsBareBeside};

use crate::lows::{GROUP, GROUPS, PLACES, group_of, rest_of_group};
use std::alloc::{AllocError, Global};
use std::marker::Model;

/// Marks of blocks. Before a message has a limit of resends there are no places.
#[derive(Drop)]
pub struct Marks {
    /// Each block is marked.
    all: bool,
    places: Vec<bool>,
    /// Of each group whether a place of it may have a mark.
    groups: Vec<bool>,
}

impl Model for Marks {
    ghost use Rattle.std.specs.Prelude.{◌≡◌, ◌<◌, length};
    ghost use Rattle.flow_send.specs.Marks.{Marked, AreGroups};

    ghost Value = { Marked };

    ghost view = { λ m. record { all = m.all; places = m.places.items } };

    ghost invariant = { λ m. (0 < length m.places.items → length m.places.items ≡ 2056) ×
        (0 < length m.places.items → length m.groups.items ≡ 65) ×
        AreGroups m.groups.items m.places.items };
}

/// So many places without a mark.
fn unmarked(alloc: Global, count: usize) -> Result<Vec<bool>, AllocError>
    ensures { IfOk result (λ all. all.items ≡ replicate count false) }
{
    let mut all = Vec::with_capacity(alloc, count)?;
    all.resize(count, false)?;
    Ok(all)
}

impl Marks {
    pub fn new(alloc: Global) -> Marks
        ensures { (b : ℕ) → marked_at result b ≡ false }
    {
        Marks {
            all: false,
            places: Vec::new(alloc),
            groups: Vec::new(alloc),
        }
    }

    /// Whether a block may be marked.
    pub fn any(&self) -> bool {
        self.all || self.places.len() > 0
    }

    /// Whether a place has a mark.
    fn at_place(&self, place: usize) -> bool
        ensures { result ≡ get_or self.now.places place false }
    {
        match self.places.get(place) {
            Some(mark) => *mark,
            None => false,
        }
    }

    /// Whether a place of a place's group may have a mark.
    fn group(&self, place: usize) -> bool
        ensures { result ≡ false → IsBare place self.now.places }
    {
        match self.groups.get(group_of(place)) {
            Some(group) => *group,
            None => false,
        }
    }

    /// Whether a place of a place's group has a mark, that one aside.
    fn any_beside(&self, place: usize) -> bool
        requires { place < 2056 }
        ensures { result ≡ false → IsBareBeside place self.now.places }
    {
        let first = group_of(place) * GROUP as usize;
        for other in first..first + GROUP as usize {
            if other != place && self.at_place(other) {
                return true;
            }
        }
        false
    }

    /// How many blocks from one on have no mark of their own, as far as a look at its group or at
    /// itself tells.
    pub fn bare(&self, block: u64) -> u64
        ensures { (b : ℕ) → block ≤ b → b < block + result →
            get_or self.now.places (b % 2056) false ≡ false }
    {
        let place = (block % PLACES) as usize;
        if !self.group(place) {
            return rest_of_group(block);
        }
        if !self.at_place(place) {
            return 1;
        }
        0
    }

    /// How many blocks from one on aren't marked, as far as that look tells.
    pub fn quiet(&self, block: u64) -> u64
        ensures { (b : ℕ) → block ≤ b → b < block + result → marked_at self.now b ≡ false }
    {
        if self.all {
            return 0;
        }
        self.bare(block)
    }

    /// Makes the places, where there is a limit of resends.
    pub fn make_for(&mut self, limit: Option<u32>) -> Result<(), AllocError>
        ensures { (b : ℕ) → marked_at self.new b ≡ marked_at self.old b }
    {
        if limit.is_none() || self.places.len() > 0 {
            return Ok(());
        }
        let alloc = *self.places.allocator();
        let groups = unmarked(alloc, GROUPS as usize)?;
        self.places = unmarked(alloc, PLACES as usize)?;
        self.groups = groups;
        Ok(())
    }

    /// Marks a block, or all where there are no places.
    pub fn mark(&mut self, block: u64)
        ensures own { marked_at self.new block ≡ true }
        ensures grows { Grows self.old self.new }
    {
        let place = (block % PLACES) as usize;
        if place >= self.places.len() {
            self.all = true;
            return;
        }
        self.places[place] = true;
        self.groups[group_of(place)] = true;
    }

    /// Marks all blocks.
    pub fn mark_all(&mut self)
        ensures { (b : ℕ) → marked_at self.new b ≡ true }
    {
        self.all = true;
    }

    /// Takes away the mark of a block, unless all are marked.
    pub fn clear(&mut self, block: u64)
        ensures { (b : ℕ) → b % 2056 ≢ block % 2056 → marked_at self.old b ≡ true →
            marked_at self.new b ≡ true }
    {
        let place = (block % PLACES) as usize;
        if !self.at_place(place) {
            return;
        }
        let group = self.any_beside(place);
        self.places[place] = false;
        self.groups[group_of(place)] = group;
    }

    /// All blocks are no longer marked at once.
    pub fn forget_all(&mut self)
        ensures { self.new ≡ record self.old { all = false } }
    {
        self.all = false;
    }
}
