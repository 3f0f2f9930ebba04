//! Messages in a line by rising number, and among them some that wait no more.

ghost use Rattle.std.specs.Prelude.{◌≡◌, ◌+◌, ◌-◌, ◌≤◌, IfSome, Some, true, false, drop, slice_get};
ghost use Rattle.flow_send.specs.Sender.{message_at};
ghost use Rattle.flow_send.specs.Slots.{slot_of, waiting_in, InSlots, AllGone, IsLine, LastWaits};
ghost use Rattle.flow_send.specs.Slots.{AreBelow, AreFrom, IsPlace, IsStart};

use crate::waiting::Waiting;
use std::collections::VecDeque;

/// A message, and how many from it on are known to wait no more: none where it waits itself.
#[derive(Clone, Copy)]
pub struct Slot {
    pub message: Waiting,
    pub gone: usize,
}

/// The one at an index.
pub fn slot_at(slots: &VecDeque<Slot>, at: usize) -> Option<Slot>
    ensures { result ≡ slice_get slots.now.items at }
{
    slots.get(at).copied()
}

/// The first message from an index on that waits.
pub fn next(slots: &VecDeque<Slot>, from: usize) -> Option<Waiting>
    requires { AllGone slots.now.items }
    ensures { result ≡ slice_get (waiting_in (drop from slots.now.items)) 0 }
{
    let mut at = from;
    while let Some(found) = slot_at(slots, at) {
        if found.gone == 0 {
            return Some(found.message);
        }
        at = at.saturating_add(found.gone);
    }
    None
}

/// Whether the one at an index is there and begins below a number, and with it those before it.
fn is_below(slots: &VecDeque<Slot>, at: usize, number: u64) -> bool
    requires { InSlots 0 slots.now.items }
    ensures below { result ≡ true → AreBelow number (at + 1) slots.now.items }
    ensures from { result ≡ false → AreFrom number at slots.now.items }
{
    match slot_at(slots, at) {
        Some(found) => found.message.number < number,
        None => false,
    }
}

/// The index of the first one that begins at a number or above it, where that is an index or the
/// one behind it.
fn beside(slots: &VecDeque<Slot>, number: u64, near: usize) -> Option<usize>
    requires { InSlots 0 slots.now.items }
    ensures { IfSome result (λ at. IsPlace number at slots.now.items) }
{
    if is_below(slots, near, number) {
        let behind = near.saturating_add(1);
        if is_below(slots, behind, number) {
            return None;
        }
        return Some(behind);
    }
    if near > 0 && !is_below(slots, near - 1, number) {
        return None;
    }
    Some(near)
}

/// The index of the first one that begins at a number or above it. It is looked for near an index
/// first.
pub fn place(slots: &VecDeque<Slot>, number: u64, near: usize) -> usize
    requires { InSlots 0 slots.now.items }
    ensures { IsPlace number result slots.now.items }
{
    if let Some(at) = beside(slots, number, near) {
        return at;
    }
    let mut low: usize = 0;
    let mut high = slots.len();
    while low < high {
        let middle = low + (high - low) / 2;
        if is_below(slots, middle, number) {
            low = middle + 1;
            continue;
        }
        high = middle;
    }
    low
}

/// Where a walk begins that looks at those from a place on, and at the one before it, where that
/// one has a number above the place's.
pub fn start(slots: &VecDeque<Slot>, place: usize, low: u64) -> usize
    ensures { IsStart low place result slots.now.items }
{
    if place == 0 {
        return 0;
    }
    match slot_at(slots, place - 1) {
        Some(before) if !before.message.passes(low) => place,
        _ => place - 1,
    }
}

/// The place of the number after one, whose own place this is.
pub fn behind(slots: &VecDeque<Slot>, at: usize, number: u64) -> usize
    requires line { InSlots 0 slots.now.items }
    requires place { IsPlace number at slots.now.items }
    ensures { IsPlace (number + 1) result slots.now.items }
{
    match slot_at(slots, at) {
        Some(found) if found.message.number == number => at + 1,
        _ => at,
    }
}

/// The message that begins at a number, whose place this is.
pub fn found(slots: &VecDeque<Slot>, at: usize, number: u64) -> Option<Waiting>
    requires line { InSlots 0 slots.now.items }
    requires place { IsPlace number at slots.now.items }
    ensures message { result ≡ message_at number (waiting_in slots.now.items) }
    ensures there { IfSome result (λ w. slice_get slots.now.items at ≡ Some (slot_of w)) }
{
    let Some(found) = slot_at(slots, at) else {
        return None;
    };
    if found.gone > 0 || found.message.number != number {
        return None;
    }
    Some(found.message)
}

/// Takes away those at the end that wait no more.
pub fn trim_back(slots: &mut VecDeque<Slot>)
    requires { IsLine slots.old.items }
    ensures line { IsLine slots.new.items }
    ensures waiting { waiting_in slots.new.items ≡ waiting_in slots.old.items }
    ensures last { LastWaits slots.new.items }
{
    while let Some(last) = slot_at(slots, slots.len().saturating_sub(1)) {
        if last.gone == 0 {
            return;
        }
        let _ = slots.pop_back();
    }
}

/// Where a slot and the one so many behind it tell so many at least, the first one tells what both
/// do. The answer is whether it is so.
pub fn lengthen(slots: &mut VecDeque<Slot>, at: usize, by: usize) -> bool
    requires some { 1 ≤ by }
    requires line { IsLine slots.old.items }
    ensures line { IsLine slots.new.items }
    ensures waiting { waiting_in slots.new.items ≡ waiting_in slots.old.items }
{
    let Some(first) = slot_at(slots, at) else {
        return false;
    };
    let Some(second) = slot_at(slots, at.saturating_add(by)) else {
        return false;
    };
    if first.gone < by || second.gone < by {
        return false;
    }
    let gone = first.gone.max(by.saturating_add(second.gone));
    slots[at] = Slot {
        message: first.message,
        gone,
    };
    true
}
