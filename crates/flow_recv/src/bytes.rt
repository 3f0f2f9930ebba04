//! Bytes that grow at both ends.

ghost use Rattle.std.specs.Prelude.{◌≡◌, ◌+◌, ◌≤◌, ◌++◌, [], IfOk, OnOk, OnErr, length, take, drop};
ghost use Rattle.std.specs.Prelude.{replicate};

use std::alloc::{AllocError, Global};
use std::marker::Model;

/// Bytes, with room before them.
#[derive(Drop)]
pub struct HeldBytes {
    all: Vec<u8>,
    start: usize,
}

impl Model for HeldBytes {
    ghost use Rattle.std.specs.Prelude.{◌≤◌, ℕ, List, length, drop};

    ghost Value = { List ℕ };

    ghost view = { λ b. drop b.start b.all.items };

    ghost invariant = { λ b. b.start ≤ length b.all.items };
}

impl HeldBytes {
    pub fn new(alloc: Global) -> HeldBytes
        ensures { result ≡ [] }
    {
        HeldBytes {
            all: Vec::new(alloc),
            start: 0,
        }
    }

    pub fn from_slice(alloc: Global, bytes: &[u8]) -> Result<HeldBytes, AllocError>
        ensures { IfOk result (λ b. b ≡ bytes.now) }
    {
        Ok(HeldBytes {
            all: Vec::from_slice(alloc, bytes)?,
            start: 0,
        })
    }

    pub fn len(&self) -> usize
        ensures { result ≡ length self.now }
    {
        self.all.len() - self.start
    }

    pub fn as_slice(&self) -> &[u8]
        ensures { result.now ≡ self.now }
    {
        let (_, bytes) = self.all.split_at(self.start);
        bytes
    }

    /// Adds bytes at the end.
    pub fn append(&mut self, more: &[u8]) -> Result<(), AllocError>
        ensures added { OnOk result (self.new ≡ self.old ++ more.now) }
        ensures unchanged { OnErr result (self.new ≡ self.old) }
    {
        self.all.extend_from_slice(more)
    }

    /// Adds two pieces at the end, one after the other.
    pub fn append_both(&mut self, first: &[u8], second: &[u8]) -> Result<(), AllocError>
        ensures added { OnOk result (self.new ≡ (self.old ++ first.now) ++ second.now) }
        ensures unchanged { OnErr result (self.new ≡ self.old) }
    {
        self.all.reserve(first.len().saturating_add(second.len()))?;
        self.all.extend_from_slice(first)?;
        self.all.extend_from_slice(second)?;
        Ok(())
    }

    /// Adds two pieces at the front, one after the other. Where there is no room before the bytes,
    /// as much is made as they are then long.
    pub fn prepend_both(
        &mut self,
        alloc: Global,
        first: &[u8],
        second: &[u8],
    ) -> Result<(), AllocError>
        ensures added { OnOk result (self.new ≡ (first.now ++ second.now) ++ self.old) }
        ensures unchanged { OnErr result (self.new ≡ self.old) }
    {
        let more = first.len().saturating_add(second.len());
        if self.start < more {
            let room = more.saturating_add(self.len());
            let grown = with_room(alloc, room, self.as_slice())?;
            self.all = grown;
            self.start = room;
        }
        let middle = self.start - second.len();
        put_at(&mut self.all, middle, second);
        let front = middle - first.len();
        put_at(&mut self.all, front, first);
        self.start = front;
        Ok(())
    }

    /// The bytes alone. It takes no memory.
    pub fn into_vec(self) -> Vec<u8>
        ensures { result.items ≡ self }
    {
        let start = self.start;
        let mut all = self.all;
        if start == 0 {
            return all;
        }
        let len = all.len() - start;
        all.rotate_left(start);
        all.truncate(len);
        all
    }
}

/// Bytes after so much room.
fn with_room(alloc: Global, room: usize, bytes: &[u8]) -> Result<Vec<u8>, AllocError>
    ensures { IfOk result (λ all. all.items ≡ replicate room 0 ++ bytes.now) }
{
    let mut all = Vec::with_capacity(alloc, room.saturating_add(bytes.len()))?;
    all.resize(room, 0)?;
    all.extend_from_slice(bytes)?;
    Ok(all)
}

/// Writes a piece at an index.
fn put_at(all: &mut [u8], at: usize, piece: &[u8])
    requires { at + length piece.now ≤ length all.old }
    ensures { all.new ≡ take at all.old ++ (piece.now ++ drop (at + length piece.now) all.old) }
{
    let (_, rest) = all.split_at_mut(at);
    let (here, _) = rest.split_at_mut(piece.len());
    here.copy_from_slice(piece);
}
