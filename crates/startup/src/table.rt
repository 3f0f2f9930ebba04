//! The attempts of an end, by their near ids.

ghost use Rattle.std.specs.Prelude.{◌≡◌, ◌<◌, ◌^◌, true, Some, None, IsSome, IfNone, IfSome, OnOk};
ghost use Rattle.std.specs.Option.{option_copied};
ghost use Rattle.std.specs.FinMap.{empty, get, insert, len, remove};
ghost use Rattle.keyed_slab.specs.KeyedSlab.{thing_at};
ghost use Rattle.startup.specs.State.{AttemptState};
ghost use Rattle.startup.specs.Attempts.{lowest};
ghost use Rattle.startup.specs.Due.{is_due};
ghost use Rattle.startup.specs.Sought.{fits, IsChosen, change_of, Allows};
ghost use Rattle.startup.specs.Table.{due_from, changed_row, in_attempt, better_of, IsFirst, NonePasses};

use crate::attempt::{Attempt, Change, Row};
use crate::rows::{FoundAttempt, Sought, due_from, fits};
use deadlines::Deadlines;
use keyed_slab::{KeyedSlab, Keys};
use rtmfp_base::Memory;
use std::alloc::Global;
use std::marker::Model;

/// The attempts of an end. One is found under its near id in constant time on average, and the
/// first that is due without a look at those that aren't.
///
/// Contracts see the attempts by their near ids, and whether there is room for one more.
#[derive(Drop)]
pub(crate) struct AttemptTable {
    /// The attempts, each in a slot that it keeps.
    rows: KeyedSlab<Row>,
    /// The key of each attempt.
    keys: Keys,
    /// When something is due of the attempt in each slot.
    deadlines: Deadlines,
}

impl Model for AttemptTable {
    ghost use Rattle.startup.specs.contracts.attempt.Attempt as attempt_type;
    ghost use Rattle.startup.specs.Table.{Table, IsKept, attempts_in, is_ready, table_code};

    ghost Value = { Table };

    ghost coded = { table_code attempt_type.the_row.coded };

    ghost view = { λ t. record {
      attempts = attempts_in t.rows;
      ready = is_ready t.rows t.keys t.deadlines;
    } };

    ghost invariant = { λ t. IsKept t.rows t.keys.keys t.deadlines };
}

/// The attempt of a row changes so at a moment; from when on something is due of it then is given.
fn change_row(row: &mut Row, change: &Change<'_>, moment: u64) -> u128
    requires { Allows change.now row.old.attempt }
    ensures row { row.new ≡ changed_row (change_of change.now moment) row.old }
    ensures due { result ≡ due_from row.new.attempt }
{
    row.attempt.change(change, moment);
    due_from(&row.attempt)
}

/// The attempt of a row, which was found.
fn found_in(row: &Row) -> FoundAttempt<'_>
    ensures near { result.near ≡ row.now.near }
    ensures attempt { result.attempt.now ≡ row.now.attempt }
{
    FoundAttempt {
        near: row.near,
        attempt: &row.attempt,
    }
}

/// The slot with the lowest near id of the attempts that are sought, once one more slot was looked
/// at.
fn better(
    rows: &KeyedSlab<Row>,
    sought: &Sought<'_>,
    best: Option<usize>,
    slot: usize,
) -> Option<usize>
    requires { IfSome best (λ other. IsSome (thing_at rows.now other)) }
    ensures { result ≡ better_of (fits sought.now) rows.now best slot }
{
    let Some(row) = rows.get(slot) else {
        return best;
    };
    if !fits(&row.attempt, sought) {
        return best;
    }
    match best {
        Some(other) => {
            if rows[other].near <= row.near {
                Some(other)
            } else {
                Some(slot)
            }
        }
        None => Some(slot),
    }
}

/// The slot with the lowest near id of the attempts that are sought.
fn lowest_in(rows: &KeyedSlab<Row>, sought: &Sought<'_>) -> Option<usize>
    ensures none { IfNone result (NonePasses (fits sought.now) rows.now) }
    ensures some { IfSome result (IsFirst (fits sought.now) rows.now) }
{
    let mut best = None;
    for slot in 0..rows.bound() {
        best = better(rows, sought, best, slot);
    }
    best
}

impl AttemptTable {
    /// A table without attempts. It takes no memory.
    pub(crate) fn new(alloc: Global) -> AttemptTable
        ensures { result.attempts ≡ empty }
    {
        AttemptTable {
            rows: KeyedSlab::new(alloc),
            keys: Keys::new(alloc),
            deadlines: Deadlines::new(alloc),
        }
    }

    /// How many attempts there are.
    pub(crate) fn count(&self) -> usize
        ensures value { result ≡ len self.now.attempts }
        ensures small { result < 2 ^ 63 }
    {
        self.keys.len()
    }

    /// The attempt under this near id.
    pub(crate) fn get(&self, near: u32) -> Option<&Attempt>
        ensures { option_copied result ≡ get self.now.attempts near }
    {
        let Some(key) = self.keys.get(near) else {
            return None;
        };
        match self.rows.named(key) {
            Some(row) => Some(&row.attempt),
            None => None,
        }
    }

    /// Finds memory for one more attempt.
    pub(crate) fn reserve(&mut self) -> Result<(), Memory>
        ensures ok { OnOk result (self.new.ready ≡ true) }
        ensures attempts { self.new.attempts ≡ self.old.attempts }
    {
        self.keys.reserve()?;
        let last = self.rows.reserve()?;
        self.deadlines.reserve(last)?;
        Ok(())
    }

    /// Keeps an attempt under a near id that no other one has, for which there is room. It takes no
    /// memory.
    pub(crate) fn keep(&mut self, near: u32, attempt: Attempt)
        requires ready { self.old.ready ≡ true }
        requires free { get self.old.attempts near ≡ None }
        ensures { self.new.attempts ≡ insert self.old.attempts near attempt }
    {
        let at = due_from(&attempt);
        let key = self.rows.put(Row { near, attempt });
        self.keys.put(near, key);
        self.deadlines.set(key.slot, at, near);
    }

    /// Changes the attempt under this near id, where there is one, at a moment. It takes no memory.
    pub(crate) fn change(&mut self, near: u32, change: &Change<'_>, moment: u64)
        requires { (a : AttemptState) → get self.old.attempts near ≡ Some a → Allows change.now a }
        ensures { self.new.attempts
            ≡ in_attempt (change_of change.now moment) self.old.attempts near }
    {
        let Some(key) = self.keys.get(near) else {
            return;
        };
        let due = change_row(&mut self.rows[key.slot], change, moment);
        self.deadlines.set(key.slot, due, near);
    }

    /// Forgets the attempt under this near id, where there is one. It takes no memory.
    pub(crate) fn forget(&mut self, near: u32)
        ensures { self.new.attempts ≡ remove self.old.attempts near }
    {
        let Some(key) = self.keys.take(near) else {
            return;
        };
        self.rows.remove(key.slot);
        self.deadlines.clear(key.slot);
    }

    /// The attempt that is sought; of several that with the lowest near id.
    pub(crate) fn find(&self, sought: &Sought<'_>) -> Option<FoundAttempt<'_>>
        ensures { IsChosen (lowest (fits sought.now) self.now.attempts) self.now.attempts result }
    {
        match lowest_in(&self.rows, sought) {
            Some(slot) => Some(found_in(&self.rows[slot])),
            None => None,
        }
    }

    /// Tells that a moment has come, so that `due` finds what is due then at once.
    pub(crate) fn advance(&mut self, moment: u64)
        ensures { self.new ≡ self.old }
    {
        self.deadlines.advance(moment);
    }

    /// The attempt that is due first, by rising near ids. It looks at those alone that are due, and
    /// at the moment of the last `advance` at one.
    pub(crate) fn due(&self, moment: u64) -> Option<FoundAttempt<'_>>
        ensures { IsChosen (lowest (is_due moment) self.now.attempts) self.now.attempts result }
    {
        match self.deadlines.due(moment) {
            Some(slot) => Some(found_in(&self.rows[slot])),
            None => None,
        }
    }
}
