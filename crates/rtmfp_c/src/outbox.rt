//! The entries that calls added.

ghost use Rattle.std.specs.Prelude.{◌≡◌, slice_get, IfSome, None};
ghost use Rattle.c_shapes.specs.Numbers as numbers;
ghost use Rattle.rtmfp_c.specs.Going.{Clears};
ghost use Rattle.rtmfp_c.specs.Handles.{Goes, IsKept, end_in};
ghost use Rattle.rtmfp_c.specs.Making.{Copies, CopiesEntry, TellsEntry, Writes};
ghost use Rattle.rtmfp_c.specs.Making.{WritesBytes, count_in};

use crate::handle::Handle;
use crate::node::Node;
use crate::taking::{put, take};
use c_shapes::{CEntry, EMPTY, INDEX, OK, SIZE, bytes_of, entry_of};
use std::alloc::Global;

/// How many entries there are.
#[unsafe(no_mangle)]
pub extern "C" fn rtmfp_entries(alloc: Global, handle: &mut Handle) -> usize
    ensures count { result ≡ count_in (end_in handle.old) }
    ensures same { IsKept handle.old handle.new }
{
    let Some(node) = take(alloc, handle) else {
        return 0;
    };
    let count = node.out.entries().len();
    put(handle, node);
    count
}

/// Writes the struct of one of them.
#[unsafe(no_mangle)]
pub extern "C" fn rtmfp_entry_at(
    alloc: Global,
    handle: &mut Handle,
    index: usize,
    entry: &mut CEntry,
) -> i32
    ensures told { TellsEntry (end_in handle.old) index result entry.old entry.new }
    ensures same { IsKept handle.old handle.new }
{
    let Some(node) = take(alloc, handle) else {
        return EMPTY;
    };
    let code = tell(&node, index, entry);
    put(handle, node);
    code
}

/// Writes the struct of an entry of a node.
fn tell(node: &Node, index: usize, entry: &mut CEntry) -> i32
    ensures { Writes (slice_get node.now.out.entries index) result entry.old entry.new }
{
    match node.out.entries().get(index) {
        Some(found) => {
            *entry = entry_of(found);
            OK
        }
        None => INDEX,
    }
}

/// Copies the bytes of one of them into room of just their length.
#[unsafe(no_mangle)]
pub extern "C" fn rtmfp_entry_bytes(
    alloc: Global,
    handle: &mut Handle,
    index: usize,
    room: &mut [u8],
) -> i32
    ensures copied { Copies (end_in handle.old) index result room.old room.new }
    ensures same { IsKept handle.old handle.new }
{
    let Some(node) = take(alloc, handle) else {
        return EMPTY;
    };
    let code = copy(&node, index, room);
    put(handle, node);
    code
}

/// Copies the bytes of an entry of a node.
fn copy(node: &Node, index: usize, room: &mut [u8]) -> i32
    ensures { CopiesEntry (slice_get node.now.out.entries index) result room.old room.new }
{
    match node.out.entries().get(index) {
        Some(found) => write(bytes_of(found), room),
        None => INDEX,
    }
}

/// Writes bytes into room of just their length.
fn write(bytes: &[u8], room: &mut [u8]) -> i32
    ensures { WritesBytes bytes.now result room.old room.new }
{
    if room.len() != bytes.len() {
        return SIZE;
    }
    room.copy_from_slice(bytes);
    OK
}

/// Drops the entries.
#[unsafe(no_mangle)]
pub extern "C" fn rtmfp_clear(alloc: Global, handle: &mut Handle) -> i32
    ensures empty { end_in handle.old ≡ None →
        (result ≡ numbers.empty) × (handle.new ≡ handle.old) }
    ensures cleared { IfSome (end_in handle.old)
        (λ _. (result ≡ numbers.done) × Goes Clears handle.old handle.new) }
{
    let Some(mut node) = take(alloc, handle) else {
        return EMPTY;
    };
    node.out.clear();
    put(handle, node);
    OK
}
