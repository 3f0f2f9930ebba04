//! Bytes that were read and not handled yet.
ghost use Rattle.std.specs.Prelude.{◌≡◌, ◌+◌, ◌-◌, ◌*◌, ◌<◌, ◌≤◌, [], length, take, drop, IfOk};
ghost use Rattle.rtmfp_host.specs.Faults.{CountsTaken};
ghost use Rattle.rtmfp_lines.specs.Pending.{Fills, ReadsBehind};

use rtmfp_host::{Source, Taken};
use std::alloc::{AllocError, Global};
use std::marker::Model;

/// A buffer between a source and its reader.
#[derive(Drop)]
pub struct Buffer {
    storage: Vec<u8>,
    start: usize,
    end: usize,
}

impl Model for Buffer {
    ghost use Rattle.std.specs.Prelude.{◌-◌, ◌≤◌, length, take, drop};
    ghost use Rattle.rtmfp_lines.specs.Pending.{Pending};

    ghost Value = { Pending };

    ghost view = { λ b. record {
      bytes = take (b.end - b.start) (drop b.start b.storage.items);
      room = length b.storage.items - b.end;
      capacity = length b.storage.items;
    } };

    ghost invariant = { λ b. (b.start ≤ b.end) × (b.end ≤ length b.storage.items) };
}

impl Buffer {
    /// An empty buffer of this capacity.
    pub fn new(alloc: Global, capacity: usize) -> Result<Buffer, AllocError>
        ensures empty { IfOk result (λ buffer. buffer.bytes ≡ []) }
        ensures capacity { IfOk result (λ buffer. buffer.capacity ≡ capacity) }
    {
        let storage = vec![in alloc; 0; capacity]?;
        Ok(Buffer {
            storage,
            start: 0,
            end: 0,
        })
    }

    /// The bytes that are not handled yet.
    pub fn bytes(&self) -> &[u8]
        ensures { result.now ≡ self.now.bytes }
    {
        &self.storage[self.start..self.end]
    }

    /// The first `count` bytes are handled.
    pub fn consume(&mut self, count: usize)
        requires { count ≤ length self.old.bytes }
        ensures bytes { self.new.bytes ≡ drop count self.old.bytes }
        ensures capacity { self.new.capacity ≡ self.old.capacity }
    {
        self.start += count;
    }

    /// Moves the bytes to the front where they fit before their start, so that there is room behind
    /// them.
    fn compact(&mut self)
        requires { 2 * length self.old.bytes < self.old.capacity }
        ensures bytes { self.new.bytes ≡ self.old.bytes }
        ensures capacity { self.new.capacity ≡ self.old.capacity }
        ensures room { 0 < self.new.room }
    {
        let count = self.end - self.start;
        if count > self.start {
            return;
        }
        move_to_front(&mut self.storage, self.start, count);
        self.start = 0;
        self.end = count;
    }

    /// Reads once, behind the bytes that are there.
    pub fn fill<S: Source>(&mut self, source: &mut S) -> Taken
        requires { 2 * length self.old.bytes < self.old.capacity }
        ensures filled { Fills (S.seen source.old).left (S.seen source.new).left result
            self.old.bytes self.new.bytes }
        ensures capacity { self.new.capacity ≡ self.old.capacity }
        ensures asked { (S.seen source.new).asked ≡ (S.seen source.old).left }
        ensures faults { CountsTaken result (S.seen source.old).faults (S.seen source.new).faults }
    {
        self.compact();
        match read_behind(source, &mut self.storage, self.end) {
            Taken::Done(count) => {
                self.end += count;
                Taken::Done(count)
            }
            Taken::End => Taken::End,
            Taken::Failed => Taken::Failed,
        }
    }
}

/// Reads once, behind the first `end` bytes.
fn read_behind<S: Source>(source: &mut S, bytes: &mut [u8], end: usize) -> Taken
    requires { end < length bytes.old }
    ensures behind { ReadsBehind (S.seen source.old).left (S.seen source.new).left end result
        bytes.old bytes.new }
    ensures length { length bytes.new ≡ length bytes.old }
    ensures asked { (S.seen source.new).asked ≡ (S.seen source.old).left }
    ensures faults { CountsTaken result (S.seen source.old).faults (S.seen source.new).faults }
{
    let (_, room) = bytes.split_at_mut(end);
    source.read(room)
}

/// Copies `count` bytes from `start` on to the front.
fn move_to_front(bytes: &mut [u8], start: usize, count: usize)
    requires there { start + count ≤ length bytes.old }
    requires apart { count ≤ start }
    ensures front { take count bytes.new ≡ take count (drop start bytes.old) }
    ensures length { length bytes.new ≡ length bytes.old }
{
    let (front, back) = bytes.split_at_mut(start);
    front[..count].copy_from_slice(&back[..count]);
}
