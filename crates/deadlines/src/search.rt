//! The search for the lowest near id among the entries that are due.

ghost use Rattle.std.specs.Prelude.{◌≡◌, ◌<◌, ◌≤◌, ◌⊎◌, length, IfSome, IfNone, Some};
ghost use Rattle.deadlines.specs.Inside.{IsDuePlace, IsHeap, IsLowestBelow, NoneBelow, at_of, keys_of, near_of};

use crate::entry::{Entry, Order};

/// Of two places that with the lower near id.
fn lower(entries: &[Entry], one: usize, other: Option<usize>) -> usize
    requires one { one < length entries.now }
    requires other { IfSome other (λ place. place < length entries.now) }
    ensures either { (result ≡ one) ⊎ (other ≡ Some result) }
    ensures one { near_of entries.now result ≤ near_of entries.now one }
    ensures other { IfSome other (λ place. near_of entries.now result ≤ near_of entries.now place) }
{
    match other {
        None => one,
        Some(place) => {
            if entries[place].near < entries[one].near {
                return place;
            }
            one
        }
    }
}

/// In a heap by deadlines, among the entries at or below a place, the place of that with the
/// lowest near id of those that are due; None where none is due.
///
/// It looks at no place below an entry that isn't due: for n due entries it looks at no more than
/// 2n + 1 places, and it calls itself no deeper than the heap is.
fn lowest_due(entries: &[Entry], count: usize, top: usize, moment: u64) -> Option<usize>
    requires fits { count ≤ length entries.now }
    requires heap { IsHeap (at_of entries.now) count }
    ensures some { IfSome result (IsLowestBelow entries.now count moment top) }
    ensures none { IfNone result (NoneBelow entries.now count moment top) }
{
    if top >= count {
        return None;
    }
    if entries[top].at > moment as u128 {
        return None;
    }
    if top >= count / 2 {
        return Some(top);
    }
    let left = lowest_due(entries, count, 2 * top + 1, moment);
    let right = lowest_due(entries, count, 2 * top + 2, moment);
    let first = lower(entries, top, left);
    let lowest = lower(entries, first, right);
    Some(lowest)
}

/// In a heap by near ids, among the entries at or below a place, the place of the first one that
/// is due; None where none is due.
///
/// It looks at no place below an entry that is due: for n entries that aren't it looks at no more
/// than 2n + 1 places, and it calls itself no deeper than the heap is.
fn first_due(entries: &[Entry], count: usize, top: usize, moment: u64) -> Option<usize>
    requires fits { count ≤ length entries.now }
    requires heap { IsHeap (near_of entries.now) count }
    ensures some { IfSome result (IsLowestBelow entries.now count moment top) }
    ensures none { IfNone result (NoneBelow entries.now count moment top) }
{
    if top >= count {
        return None;
    }
    if entries[top].at <= moment as u128 {
        return Some(top);
    }
    if top >= count / 2 {
        return None;
    }
    let left = first_due(entries, count, 2 * top + 1, moment);
    let right = first_due(entries, count, 2 * top + 2, moment);
    match left {
        None => right,
        Some(place) => Some(lower(entries, place, right)),
    }
}

/// The place of the entry with the lowest near id of those that are due; None where none is due.
pub fn lowest_place(by: Order, entries: &[Entry], count: usize, moment: u64) -> Option<usize>
    requires fits { count ≤ length entries.now }
    requires heap { IsHeap (keys_of by entries.now) count }
    ensures some { IfSome result (IsLowestBelow entries.now count moment 0) }
    ensures none { IfNone result (NoneBelow entries.now count moment 0) }
{
    match by {
        Order::ByDeadline => lowest_due(entries, count, 0, moment),
        Order::ByNearId => first_due(entries, count, 0, moment),
    }
}

/// In a heap by deadlines, the first place where that is due; None where none is due.
fn earliest_due(entries: &[Entry], count: usize, moment: u64) -> Option<usize>
    requires fits { count ≤ length entries.now }
    requires heap { IsHeap (at_of entries.now) count }
    ensures some { IfSome result (IsDuePlace entries.now count moment) }
    ensures none { IfNone result (NoneBelow entries.now count moment 0) }
{
    if count == 0 {
        return None;
    }
    if entries[0].at > moment as u128 {
        return None;
    }
    Some(0)
}

/// The place of an entry that is due; None where none is due. By deadlines it looks at one place.
pub fn due_place(by: Order, entries: &[Entry], count: usize, moment: u64) -> Option<usize>
    requires fits { count ≤ length entries.now }
    requires heap { IsHeap (keys_of by entries.now) count }
    ensures some { IfSome result (IsDuePlace entries.now count moment) }
    ensures none { IfNone result (NoneBelow entries.now count moment 0) }
{
    match by {
        Order::ByDeadline => earliest_due(entries, count, moment),
        Order::ByNearId => first_due(entries, count, 0, moment),
    }
}
