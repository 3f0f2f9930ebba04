//! A round over the sessions with a sending flow that isn't idle, by which a tick looks at each of
//! them once.

ghost use Rattle.std.specs.Prelude.{◌≡◌, ◌<◌, ◌≤◌, ℕ, [], None, Some, IfNone, IfSome, IsSome, length, true};
ghost use Rattle.std.specs.Prelude.{vec_capacity, vec_len};
ghost use Rattle.keyed_slab.specs.KeyedSlab.{thing_at};
ghost use Rattle.keyed_slab.specs.Seating.{IsNamed};
ghost use Rattle.keyed_slab.specs.SlotSet.{slot_at};
ghost use Rattle.session_table.specs.Inside.{AllAreOwn, IsAwaitedAt, IsDueUnder, IsFirstBeside};
ghost use Rattle.session_table.specs.Inside.{IsLeft, IsRising, NoneIsDueUnder};
ghost use Rattle.session_table.specs.Table.{near_of};

use crate::due::is_row_due;
use crate::row_facts::near_of;
use endpoint_model::Row;
use keyed_slab::{KeyedSlab, Keys};
use rtmfp_base::Memory;
use std::alloc::Global;

/// The sessions that are still to be looked at for one moment, by rising session IDs.
///
/// It is there for speed alone: where it has ended, all sessions with such a flow are looked at.
#[derive(Drop)]
pub(crate) struct Round {
    /// The moment for which it goes on.
    pub(crate) moment: Option<u64>,
    /// The session IDs, sorted. The first is no session's: it keeps a place before the others.
    pub(crate) nears: Vec<u32>,
    /// The place of the next one. Those before it have nothing due of their flows.
    pub(crate) next: usize,
}

impl Round {
    /// None goes on. It takes no memory.
    pub(crate) fn new(alloc: Global) -> Round
        ensures moment { result.moment ≡ None }
        ensures nears { result.nears.items ≡ [] }
    {
        Round {
            moment: None,
            nears: Vec::new(alloc),
            next: 0,
        }
    }

    /// Whether it goes on for a moment.
    pub(crate) fn goes_on(&self, moment: u64) -> bool
        ensures { result ≡ true → self.now.moment ≡ Some moment }
    {
        match self.moment {
            Some(begun) => begun == moment,
            None => false,
        }
    }

    /// Finds memory for the sessions in the slots up to one, and changes nothing else.
    pub(crate) fn reserve(&mut self, last: usize) -> Result<(), Memory>
        ensures moment { self.new.moment ≡ self.old.moment }
        ensures nears { self.new.nears.items ≡ self.old.nears.items }
        ensures next { self.new.next ≡ self.old.next }
    {
        let more = last.saturating_add(2).saturating_sub(self.nears.len());
        match self.nears.reserve(more) {
            Ok(()) => Ok(()),
            Err(_) => Err(Memory),
        }
    }

    /// Begins for a moment with the sessions in these slots. Where they want memory it has ended.
    pub(crate) fn begin(&mut self, rows: &KeyedSlab<Row>, slots: &[usize], moment: u64)
        requires { (place : ℕ) → place < length slots.now
            → IsSome (thing_at rows.now (slot_at slots.now place)) }
        ensures rises { IsRising self.new.nears.items self.new.next }
        ensures moment { IfSome self.new.moment (λ begun. begun ≡ moment) }
        ensures left { IsSome self.new.moment → (place : ℕ) (row : Row) → place < length slots.now
            → thing_at rows.now (slot_at slots.now place) ≡ Some row
            → IsLeft self.new.nears.items self.new.next (near_of row) }
    {
        self.moment = None;
        self.next = 0;
        self.nears.clear();
        if has_room(&self.nears, slots.len()) {
            list(&mut self.nears, rows, slots);
            self.moment = Some(moment);
            return;
        }
    }

    /// The next session ID.
    fn next_near(&self) -> Option<u32>
        ensures some { IfSome result (λ near. near ≡ slot_at self.now.nears.items self.now.next) }
        ensures below { IsSome result → self.now.next < length self.now.nears.items }
        ensures none { IfNone result (length self.now.nears.items ≤ self.now.next) }
    {
        if self.next < self.nears.len() {
            return Some(self.nears[self.next]);
        }
        None
    }

    /// Comes to a session that was changed, again where it was looked at. Where it has no place for
    /// it, it ends: in a tick what changes is the next, or has a lower session ID.
    pub(crate) fn put(&mut self, near: u32)
        requires { IsRising self.old.nears.items self.old.next }
        ensures rises { IsRising self.new.nears.items self.new.next }
        ensures moment { IsSome self.new.moment → self.new.moment ≡ self.old.moment }
        ensures put { IsSome self.new.moment → IsLeft self.new.nears.items self.new.next near }
        ensures rest { IsSome self.new.moment → (other : ℕ)
            → IsLeft self.old.nears.items self.old.next other
            → IsLeft self.new.nears.items self.new.next other }
    {
        if self.next < self.nears.len() && self.nears[self.next] == near {
            return;
        }
        if !is_place_before(&self.nears, self.next, near) {
            self.moment = None;
            return;
        }
        self.next -= 1;
        self.nears[self.next] = near;
    }

    /// Passes over the sessions of which nothing is due at its moment, and gives the slot of the
    /// first of which something is.
    pub(crate) fn first_due(
        &mut self,
        rows: &KeyedSlab<Row>,
        keys: &Keys,
        moment: u64,
    ) -> Option<usize>
        requires names { IsNamed near_of rows.now.things rows.now.generations keys.now.keys }
        requires rises { IsRising self.old.nears.items self.old.next }
        requires moment { self.old.moment ≡ Some moment }
        requires awaits { (slot : ℕ) → IsAwaitedAt rows.now.things self.old slot }
        ensures rises { IsRising self.new.nears.items self.new.next }
        ensures awaits { (slot : ℕ) → IsAwaitedAt rows.now.things self.new slot }
        ensures none { IfNone result (AllAreOwn moment rows.now.things) }
        ensures some { IfSome result (IsFirstBeside moment rows.now.things) }
    {
        while let Some(near) = self.next_near() {
            match due_under(rows, keys, near, moment) {
                Some(slot) => return Some(slot),
                None => self.next += 1,
            }
        }
        None
    }
}

/// Whether there is memory for one more than so many.
fn has_room(nears: &Vec<u32>, count: usize) -> bool
    ensures { result ≡ true → count < vec_capacity nears.now }
{
    count < nears.capacity()
}

/// Lists the session IDs of the rows in these slots, sorted, with one that is no session's.
fn list(nears: &mut Vec<u32>, rows: &KeyedSlab<Row>, slots: &[usize])
    requires there { (place : ℕ) → place < length slots.now
        → IsSome (thing_at rows.now (slot_at slots.now place)) }
    requires none { vec_len nears.old ≡ 0 }
    requires room { length slots.now < vec_capacity nears.old }
    ensures rises { IsRising nears.new.items 0 }
    ensures left { (place : ℕ) (row : Row) → place < length slots.now
        → thing_at rows.now (slot_at slots.now place) ≡ Some row
        → IsLeft nears.new.items 0 (near_of row) }
{
    nears.push_reserved(0);
    fill(nears, rows, slots);
    nears.sort_unstable();
}

/// Whether there is a place before the next one, where this session ID is in its order.
fn is_place_before(nears: &[u32], next: usize, near: u32) -> bool
    ensures begins { result ≡ true → 0 < next }
    ensures ends { result ≡ true → next ≤ length nears.now }
    ensures lower { result ≡ true → next < length nears.now → near ≤ slot_at nears.now next }
{
    if next == 0 || next > nears.len() {
        return false;
    }
    next == nears.len() || near <= nears[next]
}

/// Puts the session IDs of the rows in these slots behind one that is no session's.
fn fill(nears: &mut Vec<u32>, rows: &KeyedSlab<Row>, slots: &[usize])
    requires there { (place : ℕ) → place < length slots.now
        → IsSome (thing_at rows.now (slot_at slots.now place)) }
    requires one { vec_len nears.old ≡ 1 }
    requires room { length slots.now < vec_capacity nears.old }
    ensures { (place : ℕ) (row : Row) → place < length slots.now
        → thing_at rows.now (slot_at slots.now place) ≡ Some row
        → IsLeft nears.new.items 0 (near_of row) }
{
    for index in 0..slots.len() {
        nears.push_reserved(near_of(&rows[slots[index]]));
    }
}

/// The slot of the session with this session ID, where something is due of it at a moment.
fn due_under(rows: &KeyedSlab<Row>, keys: &Keys, near: u32, moment: u64) -> Option<usize>
    requires { IsNamed near_of rows.now.things rows.now.generations keys.now.keys }
    ensures none { IfNone result (NoneIsDueUnder moment near rows.now.things) }
    ensures some { IfSome result (IsDueUnder moment near rows.now.things) }
{
    match keys.get(near) {
        Some(key) => {
            if is_row_due(&rows[key.slot], moment) {
                return Some(key.slot);
            }
            None
        }
        None => None,
    }
}
