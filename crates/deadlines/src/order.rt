//! Moves of one entry that stands too high or too low in its heap.

ghost use Rattle.std.specs.Prelude.{◌≡◌, ◌<◌, ◌≤◌, ℕ, length, IfSome, IfNone};
ghost use Rattle.deadlines.specs.Inside.{IsTied, IsHeap, IsHeapBut, IsHeapAbove, slots_of, keys_of, parent};

use crate::entry::{Entry, Order};
use crate::places::exchange;

/// Moves the entry at a place up, past each entry that comes after it, and gives the place to which
/// it came.
fn rise(by: Order, entries: &mut [Entry], places: &mut [usize], count: usize, from: usize) -> usize
    requires tied { IsTied entries.old places.old }
    requires within { from < count }
    requires fits { count ≤ length places.old }
    requires but { IsHeapBut (keys_of by entries.old) count from }
    ensures tied { IsTied entries.new places.new }
    ensures long { length places.new ≡ length places.old }
    ensures slots { slots_of entries.new places.new count ≡ slots_of entries.old places.old count }
    ensures within { result < count }
    ensures risen { IsHeapAbove (keys_of by entries.new) count result }
{
    let mut place = from;
    while place > 0 {
        let up = (place - 1) / 2;
        if by.key(entries[up]) <= by.key(entries[place]) {
            return place;
        }
        exchange(entries, places, place, up);
        place = up;
    }
    place
}

/// Of the places below a place that whose entry comes first; None where there are no such places.
fn first_below(by: Order, entries: &[Entry], count: usize, place: usize) -> Option<usize>
    requires fits { count ≤ length entries.now }
    ensures none { IfNone result ((j : ℕ) → 0 < j → parent j ≡ place → count ≤ j) }
    ensures below { IfSome result (λ child. parent child ≡ place) }
    ensures inside { IfSome result (λ child. child < count) }
    ensures under { IfSome result (λ child. 0 < child) }
    ensures first { IfSome result (λ child. (j : ℕ) → 0 < j → j < count → parent j ≡ place
        → keys_of by entries.now child ≤ keys_of by entries.now j) }
{
    if place >= count / 2 {
        return None;
    }
    let left = 2 * place + 1;
    let right = left + 1;
    if right < count && by.key(entries[right]) < by.key(entries[left]) {
        return Some(right);
    }
    Some(left)
}

/// Moves the entry at a place down, past each entry that comes before it.
fn sink(by: Order, entries: &mut [Entry], places: &mut [usize], count: usize, from: usize)
    requires tied { IsTied entries.old places.old }
    requires within { from < count }
    requires fits { count ≤ length places.old }
    requires above { IsHeapAbove (keys_of by entries.old) count from }
    ensures tied { IsTied entries.new places.new }
    ensures long { length places.new ≡ length places.old }
    ensures slots { slots_of entries.new places.new count ≡ slots_of entries.old places.old count }
    ensures heap { IsHeap (keys_of by entries.new) count }
{
    let mut place = from;
    loop {
        let Some(child) = first_below(by, entries, count, place) else {
            return;
        };
        if by.key(entries[place]) <= by.key(entries[child]) {
            return;
        }
        exchange(entries, places, place, child);
        place = child;
    }
}

/// Moves the entry at a place to where it belongs.
pub fn settle(by: Order, entries: &mut [Entry], places: &mut [usize], count: usize, place: usize)
    requires tied { IsTied entries.old places.old }
    requires within { place < count }
    requires fits { count ≤ length places.old }
    requires but { IsHeapBut (keys_of by entries.old) count place }
    ensures tied { IsTied entries.new places.new }
    ensures long { length places.new ≡ length places.old }
    ensures slots { slots_of entries.new places.new count ≡ slots_of entries.old places.old count }
    ensures heap { IsHeap (keys_of by entries.new) count }
{
    let risen = rise(by, entries, places, count, place);
    sink(by, entries, places, count, risen);
}
