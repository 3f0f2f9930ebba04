//! When which slot is due.

ghost use Rattle.std.specs.Prelude.{◌≡◌, ◌+◌, [], IfSome, IfNone, IsOk, OnOk, OnErr};
ghost use Rattle.deadlines.specs.Deadlines.{HasRoom, IsFreeFor, IsNextDue, NoneIsDue, deadline_set, deadline_cleared, with_room};

use crate::entry::Order;
use crate::halves::move_due;
use crate::heap::Heap;
use rtmfp_base::Memory;
use std::alloc::Global;
use std::marker::Model;

/// Deadlines of things that stand in slots, each with the near id of its thing.
///
/// Contracts see the slots that have room, which are those below a number, each with its entry or
/// none. No two entries have one near id.
///
/// It is two binary heaps, in each of which each slot keeps the place of its entry: by deadlines
/// what is due after the latest moment that `advance` was told, and by near ids what was due then.
/// `set` and `clear` move an entry along one way through each heap. `advance` moves each entry that
/// came due once, at a logarithm. `due` looks at one entry of each heap where the moment is the
/// latest that `advance` was told, however many are due. At a later moment it looks at no more than
/// twice the entries that came due since and two, at an earlier one at no more than twice those that
/// came due since and two.
#[derive(Drop)]
pub struct Deadlines {
    /// By deadlines: the entries that are due after the floor.
    later: Heap,
    /// By near ids: the entries that are due at the floor.
    ready: Heap,
    /// The latest moment that `advance` was told; 0 before.
    floor: u64,
}

impl Model for Deadlines {
    ghost use Rattle.deadlines.specs.Deadlines.{Slots};
    ghost use Rattle.deadlines.specs.Halves.{IsParted, merged};

    ghost Value = { Slots };

    ghost view = { λ d. merged d.later d.ready };

    ghost invariant = { λ d. IsParted d.later d.ready d.floor };
}

impl Deadlines {
    /// No slot has room. It takes no memory.
    pub fn new(alloc: Global) -> Deadlines
        ensures { result ≡ [] }
    {
        Deadlines {
            later: Heap::new(alloc, Order::ByDeadline),
            ready: Heap::new(alloc, Order::ByNearId),
            floor: 0,
        }
    }

    /// Gives the slot room, and the slots below it. A slot that has room takes no memory.
    pub fn reserve(&mut self, slot: usize) -> Result<(), Memory>
        ensures ok { OnOk result (self.new ≡ with_room self.old (slot + 1)) }
        ensures err { OnErr result (self.new ≡ self.old) }
        ensures room { OnOk result (HasRoom self.new slot) }
        ensures held { HasRoom self.old slot → IsOk result }
    {
        match self.later.reserve(slot) {
            Ok(()) => {}
            Err(_) => return Err(Memory),
        }
        match self.ready.reserve(slot) {
            Ok(()) => {}
            Err(_) => return Err(Memory),
        }
        Ok(())
    }

    /// Makes the slot's entry, or moves it. It takes no memory.
    pub fn set(&mut self, slot: usize, at: u128, near: u32)
        requires room { HasRoom self.old slot }
        requires free { IsFreeFor self.old slot near }
        ensures { self.new ≡ deadline_set self.old slot at near }
    {
        if at <= self.floor as u128 {
            self.later.clear(slot);
            self.ready.set(slot, at, near);
            return;
        }
        self.ready.clear(slot);
        self.later.set(slot, at, near);
    }

    /// Takes out the slot's entry, where there is one, and leaves its room. It takes no memory.
    pub fn clear(&mut self, slot: usize)
        ensures { self.new ≡ deadline_cleared self.old slot }
    {
        self.later.clear(slot);
        self.ready.clear(slot);
    }

    /// Tells that `moment` has come, so that `due` finds what is due then at once. It changes
    /// nothing that contracts see, and takes no memory. A moment that isn't after each one told
    /// before changes nothing at all.
    pub fn advance(&mut self, moment: u64)
        ensures { self.new ≡ self.old }
    {
        if moment <= self.floor {
            return;
        }
        self.floor = moment;
        move_due(&mut self.later, &mut self.ready, moment);
    }

    /// Of the slots with a deadline at most `moment` the one with the lowest near id; None where
    /// there is none. It takes no memory.
    pub fn due(&self, moment: u64) -> Option<usize>
        ensures some { IfSome result (IsNextDue self.now moment) }
        ensures none { IfNone result (NoneIsDue self.now moment) }
    {
        match self.ready.lowest_due(moment) {
            None => match self.later.lowest_due(moment) {
                None => None,
                Some(later) => Some(later.slot),
            },
            Some(ready) => match self.later.lowest_due(moment) {
                None => Some(ready.slot),
                Some(later) => {
                    if later.near < ready.near {
                        return Some(later.slot);
                    }
                    Some(ready.slot)
                }
            },
        }
    }
}
